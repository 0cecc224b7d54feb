//! Laws of stream ciphers: what follows of the calls of `StreamCipher` and `StreamCipherSeek`.

ghost use Rattle.cipher_stream.specs.Laws.{ApplyingTwice, SeekingInto};

/// Applying a keystream twice from one position gives the bytes back.
pub fn applying_twice()
    ensures law { ApplyingTwice }
{}

/// Seeking to a position and applying gives what a run from 0 gives there.
pub fn seeking_into()
    ensures law { SeekingInto }
{}
