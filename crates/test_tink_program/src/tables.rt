//! The tables of rows, in the order in which they are run: a row may name what rows before it kept.

mod commands;
mod damaged;
mod faults;
mod keysets;
mod names;
mod ranges;
mod rewraps;
mod runs;
mod streams;
mod tokens;

/// The tables of that number, of a row a line. The line `ways:` before a table has the ways in which it is run: settings
/// that follow each row, with semicolons between the ways. Behind the last tables there are none.
pub fn tables_of(number: usize) -> Option<&'static str> {
    let tables = match number {
        0 => names::TABLES,
        1 => streams::TABLES,
        2 => damaged::TABLES,
        3 => faults::TABLES,
        4 => commands::TABLES,
        5 => keysets::TABLES,
        6 => runs::TABLES,
        7 => rewraps::TABLES,
        8 => ranges::TABLES,
        9 => tokens::TABLES,
        _ => return None,
    };
    Some(tables)
}
