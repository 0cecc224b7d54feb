//! The laws of AES in counter mode and of the AEADs by AES.

ghost use Rattle.std.specs.Prelude.{ℕ, List};
ghost use Rattle.gcm.specs.Limits.{MOST_GCM, MOST_GCM_SIV};
ghost use Rattle.standards.specs.AesKeys.{aes};
ghost use Rattle.standards.specs.Gcm.{gcm};
ghost use Rattle.standards.specs.GcmSiv.{gcm_siv};
ghost use Rattle.tink_aead_subtle.specs.AesAeads.{gcm_decrypts, gcm_encrypts, gcm_siv_decrypts, gcm_siv_encrypts};
ghost use Rattle.tink_aead_subtle.specs.Laws.{AcceptsExactly, Encrypts, IsAesKey, Undoes};
ghost use Rattle.tink_aead_subtle.specs.Laws.{CounterDecryptsExactly, CounterEncrypts, CounterUndoes};
ghost use Rattle.tink_aead_subtle.specs.Laws.{ComposedAcceptsExactly, ComposedEncrypts, ComposedUndoes};

/// AES-GCM accepts exactly the encryptions of some text, each as that of its text. What it encrypts is decrypted
/// again, and with twelve draws each text and associated data within the limits are encrypted.
pub fn law_aes_gcm()
    ensures accepts { (key : List ℕ) → AcceptsExactly (gcm (aes key)) MOST_GCM (gcm_decrypts key) }
    ensures undoes { (key : List ℕ) → Undoes (gcm_encrypts key) (gcm_decrypts key) }
    ensures encrypts { (key : List ℕ) → Encrypts MOST_GCM (gcm_encrypts key) }
{}

/// Under a key of 16 or 32 bytes AES-GCM-SIV accepts exactly the encryptions of some text, each as that of its text.
/// It decrypts what it encrypts. With twelve draws each text and associated data within the limits are encrypted.
pub fn law_aes_gcm_siv()
    ensures accepts { (key : List ℕ) → IsAesKey key
        → AcceptsExactly (gcm_siv aes key) MOST_GCM_SIV (gcm_siv_decrypts key) }
    ensures undoes { (key : List ℕ) → IsAesKey key → Undoes (gcm_siv_encrypts key) (gcm_siv_decrypts key) }
    ensures encrypts { (key : List ℕ) → Encrypts MOST_GCM_SIV (gcm_siv_encrypts key) }
{}

/// AES in counter mode has vectors of at most 16 bytes. It decrypts exactly the inputs of a vector and some text in
/// counter mode under it. Each is decrypted to its text. What it encrypts is decrypted again, and with as many draws
/// as a vector has bytes each text is encrypted.
pub fn law_aes_ctr()
    ensures accepts { CounterDecryptsExactly }
    ensures undoes { CounterUndoes }
    ensures encrypts { CounterEncrypts }
{}

/// A MAC follows AES in counter mode with vectors of at most 16 bytes. It gives each message one tag of one size and
/// accepts that alone, as HMAC does. With data of fewer than 2^61 bytes, they accept exactly the outputs of the
/// cipher for some text with their tags. Each is decrypted to its text. They decrypt what they encrypt. If as many
/// draws are left as a vector has bytes, they encrypt each text, with data of fewer than 2^61 bytes.
pub fn law_aes_ctr_then_mac()
    ensures accepts { ComposedAcceptsExactly }
    ensures undoes { ComposedUndoes }
    ensures encrypts { ComposedEncrypts }
{}
