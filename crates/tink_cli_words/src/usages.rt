//! The usage lines.

ghost use Rattle.std.specs.Prelude.{◌≡◌};
ghost use Rattle.tink_cli_words.specs.Usages.{usage_of};

use crate::Action;

/// How a command is used, in one line of at most 80 columns. Its help names the options that the line leaves out.
pub fn usage(action: Action) -> &'static str
    ensures { result.now ≡ usage_of action }
{
    match action {
        Action::New => "tink new TEMPLATE -o KEYS [--format json|binary] [--prefix PREFIX]",
        Action::Add => "tink add KEYS TEMPLATE",
        Action::Keys => "tink keys [--json] KEYS",
        Action::Templates => "tink templates",
        Action::Rotate => "tink rotate [--any] KEYS TEMPLATE",
        Action::Promote => "tink promote KEYS ID",
        Action::Enable => "tink enable KEYS ID",
        Action::Disable => "tink disable KEYS ID",
        Action::Destroy => "tink destroy KEYS ID",
        Action::Delete => "tink delete KEYS ID",
        Action::Convert => "tink convert KEYS -o NEWKEYS --format json|binary",
        Action::Encrypt => "tink encrypt -k KEYS [--aad TEXT] [--master MASTER] [-o OUT] [IN]",
        Action::Decrypt => "tink decrypt -k KEYS [--aad TEXT] [--master MASTER] [-o OUT] [IN]",
        Action::Check => "tink check -k KEYS [--aad TEXT] [--master MASTER] [IN]",
        Action::Info => "tink info -k KEYS [--aad TEXT] [--master MASTER] IN",
        Action::Rewrap => {
            "tink rewrap -k KEYS [--aad TEXT] -t NEWKEYS [--to-aad TEXT] [-o OUT] [IN]"
        }
        Action::Range => "tink range -k KEYS [--aad TEXT] --start N --length N [-o OUT] IN",
        Action::Sign => "tink sign -k KEYS [--master MASTER] [-o OUT] [IN]",
        Action::Verify => "tink verify -k KEYS [--master MASTER] [-o OUT] [IN]",
        Action::Wrap => "tink wrap -k MASTER -o WRAPPED [--aad TEXT] [--format json|binary] KEYS",
        Action::Unwrap => {
            "tink unwrap -k MASTER -o KEYS [--aad TEXT] [--format json|binary] WRAPPED"
        }
        Action::Help => "tink help [COMMAND]",
        Action::Version => "tink version",
    }
}
