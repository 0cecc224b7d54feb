//! The words of the commands over files: which command a line spells, and with which values.
#![tactic(auto)]

mod commands;
mod form;
mod help;
mod line;
mod names;
mod near;
mod options;
mod reading;
mod usages;
mod values;
mod word;
mod wrong;

pub use commands::{Given, parse};
pub use form::{Action, command_names};
pub use help::help_text;
pub use line::Line;
pub use names::is_option;
pub use near::similar;
pub use options::{OptionName, option_names};
pub use usages::usage;
pub use values::{FormatName, PrefixName};
pub use word::Word;
pub use wrong::{Operand, Why, Wrong};
