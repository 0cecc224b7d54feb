//! An encrypted store: a table of SQLite. Each value is encrypted, and bound to the name of its row.
#![tactic(auto)]

ghost use Rattle.example_store.specs.Rows.{IsCreated, IsGot, IsGetError, IsPut, IsPutError, IsRead, IsUnread, Queries, Writes};
ghost use Rattle.sqlite.specs.Held.{state};
ghost use Rattle.sqlite.specs.State.{HasCleanDisk};
ghost use Rattle.std.specs.Prelude.{◌≡◌, IfErr, IfOk, OnOk};
ghost use Rattle.tink_io.specs.Answering.{Answers};

use example_aead::encrypt_value;
use sqlite::{Alter, Connection, Row, params};
use std::alloc::Global;
use tink::{Aead, Draws, TinkError};
use tink_proto::Bytes;

/// What failed.
#[derive(Clone, Copy, Debug, PartialEq, Eq)]
pub enum StoreError {
    /// A call of the library.
    Tink(TinkError),
    /// A statement of SQL.
    Sql(sqlite::Error),
}

/// Makes the table of a new store.
///
/// # Errors
/// `Sql`, also if the table is there.
pub fn create<S: Alter>(store: &mut Connection<S>) -> Result<(), StoreError>
    ensures { HasCleanDisk (state S.Store store.new) → OnOk result (IsCreated (state S.Store store.old) (state S.Store store.new)) }
{
    match store.execute(
        "CREATE TABLE entry (name TEXT PRIMARY KEY, value BLOB NOT NULL) STRICT",
        &[],
    ) {
        Ok(_) => Ok(()),
        Err(e) => Err(StoreError::Sql(e)),
    }
}

/// Writes a row: its value is encrypted, with the name of the row as associated data. A row of this name is replaced.
///
/// # Errors
/// `Tink`: `RandomFault` if too few random bytes are left, `OutOfMemory`. `Sql`.
pub fn put<S: Alter, A: Aead>(
    alloc: Global,
    store: &mut Connection<S>,
    aead: &A,
    row: &str,
    value: &[u8],
    draws: &mut Draws,
) -> Result<(), StoreError>
    ensures done { HasCleanDisk (state S.Store store.new) → OnOk result (IsPut (A.encrypts aead.now value.now row.now draws.old)
        row.now (state S.Store store.old) (state S.Store store.new)) }
    ensures refused { IfErr result (IsPutError (A.encrypts aead.now value.now row.now draws.old) draws.old draws.new
        row.now (state S.Store store.old) (state S.Store store.new) (store.new ≡ store.old)) }
{
    match encrypt_value(alloc, aead, row.as_bytes(), value, draws) {
        Ok(ciphertext) => match write_row(store, row, ciphertext.as_slice()) {
            Ok(_) => Ok(()),
            Err(e) => Err(StoreError::Sql(e)),
        },
        Err(e) => Err(StoreError::Tink(e)),
    }
}

/// The value of a row.
///
/// # Errors
/// `Tink`: `DecryptFailed` if no key decrypts the ciphertext under this name, as after it was moved from another row;
/// `OutOfMemory`. `Sql`, also if no row has the name.
pub fn get<S: Alter, A: Aead>(
    alloc: Global,
    store: &mut Connection<S>,
    aead: &A,
    row: &str,
) -> Result<Bytes, StoreError>
    ensures done { HasCleanDisk (state S.Store store.new) → IfOk result (λ value. IsGot (λ c. A.decrypts aead.now c row.now)
        row.now value (state S.Store store.old) (state S.Store store.new)) }
    ensures refused { HasCleanDisk (state S.Store store.new) → IfErr result (IsGetError (λ c. A.decrypts aead.now c row.now)
        row.now (state S.Store store.old) (state S.Store store.new)) }
{
    match read_row(store, row) {
        Ok(ciphertext) => match decrypt_value(alloc, aead, row.as_bytes(), &ciphertext) {
            Ok(value) => Ok(value),
            Err(e) => Err(StoreError::Tink(e)),
        },
        Err(e) => Err(StoreError::Sql(e)),
    }
}

/// Encrypts each row again by the primary key, as after a rotation. After an error a part of the rows is still encrypted by
/// older keys: leave these enabled, and call it again.
///
/// # Errors
/// Those of `get` and `put`.
pub fn change_keys<S: Alter, A: Aead>(
    alloc: Global,
    store: &mut Connection<S>,
    aead: &A,
    draws: &mut Draws,
) -> Result<(), StoreError> {
    match store.query_all("SELECT name FROM entry", &[]) {
        Ok(rows) => change_rows(alloc, store, aead, &rows, draws),
        Err(e) => Err(StoreError::Sql(e)),
    }
}

fn change_rows<S: Alter, A: Aead>(
    alloc: Global,
    store: &mut Connection<S>,
    aead: &A,
    rows: &[Row],
    draws: &mut Draws,
) -> Result<(), StoreError> {
    'rows: for row in rows {
        if let Err(e) = change_row(alloc, store, aead, row, draws) {
            return Err(e);
        }
    }
    Ok(())
}

fn change_row<S: Alter, A: Aead>(
    alloc: Global,
    store: &mut Connection<S>,
    aead: &A,
    row: &Row,
    draws: &mut Draws,
) -> Result<(), StoreError> {
    let name = name_of(row)?;
    let value = get(alloc, store, aead, name.as_str())?;
    put(alloc, store, aead, name.as_str(), value.as_slice(), draws)
}

fn name_of(row: &Row) -> Result<String, StoreError> {
    match row.get(0) {
        Ok(name) => Ok(name),
        Err(e) => Err(StoreError::Sql(e)),
    }
}

// The value of a ciphertext that is bound to the name of its row.
fn decrypt_value<A: Aead>(
    alloc: Global,
    aead: &A,
    row: &[u8],
    ciphertext: &[u8],
) -> Result<Bytes, TinkError>
    ensures { Answers result (A.decrypts aead.now ciphertext.now row.now) }
{
    aead.decrypt(alloc, ciphertext, row)
}

fn write_row<S: Alter>(
    store: &mut Connection<S>,
    row: &str,
    ciphertext: &[u8],
) -> Result<usize, sqlite::Error>
    ensures { HasCleanDisk (state S.Store store.new) → Writes row.now ciphertext.now
        (state S.Store store.old) (state S.Store store.new) result }
{
    store.execute(
        "INSERT OR REPLACE INTO entry (name, value) VALUES (?1, ?2)",
        params![row, ciphertext],
    )
}

fn read_row<S: Alter>(store: &mut Connection<S>, row: &str) -> Result<Vec<u8>, sqlite::Error>
    ensures done { HasCleanDisk (state S.Store store.new) → IfOk result (λ ciphertext. IsRead row.now ciphertext.items
        (state S.Store store.old) (state S.Store store.new)) }
    ensures refused { HasCleanDisk (state S.Store store.new) → IfErr result (IsUnread row.now
        (state S.Store store.old) (state S.Store store.new)) }
{
    match find_row(store, row) {
        Ok(found) => match found.get(0) {
            Ok(ciphertext) => Ok(ciphertext),
            Err(e) => Err(e),
        },
        Err(e) => Err(e),
    }
}

fn find_row<S: Alter>(store: &mut Connection<S>, row: &str) -> Result<Row, sqlite::Error>
    ensures { HasCleanDisk (state S.Store store.new) → Queries row.now (state S.Store store.old) (state S.Store store.new) result }
{
    store.query_row("SELECT value FROM entry WHERE name = ?1", params![row])
}
