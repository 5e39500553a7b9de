// The list's files, read in step: for each ticket an entry of each file.
ghost use Rattle.std.specs.Prelude.{◌≡◌, IsTrue, length, IfOk, MatchOption};
ghost use Rattle.std.specs.Int.{w16, w32};
ghost use Rattle.std.specs.Io.KnownBytes.{Consumes, IsAtEnd};
ghost use Rattle.oracle_list.specs.Entries.{TakesPiece};

use full_read::read_full;
use std::io::{ErrorKind, Read};
use std::{fs, io, rt};
use thiserror::Error;

#[derive(Drop)]
pub struct Files<F> {
    pub tickets: F,
    pub slices: F,
    pub stimuli: F,
    // The answers expected of a call.
    pub expected: F,
}

// Why an entry was not read.
#[derive(Clone, Copy, Debug, Error)]
pub enum ListError {
    #[error("{0}")]
    Io(#[from] io::Error),
    // The file ends within an entry, or there is too little room for one.
    #[error("the files do not go together")]
    Torn,
}

// The name as bytes: a `&str` would be a narrower parameter.
pub fn open<R: rt::Files>(rt: &R, expected: &[u8]) -> io::Result<Files<R::File>> {
    let Ok(name) = str::from_utf8(expected) else {
        return Err(io::Error::new(ErrorKind::InvalidInput, "a file's name is no text"));
    };
    Ok(Files {
        tickets: fs::open(rt, "tickets")?,
        slices: fs::open(rt, "slices")?,
        stimuli: fs::open(rt, "stimuli")?,
        expected: fs::open(rt, name)?,
    })
}

// A file is closed where it is dropped.
pub fn close<F: Drop>(files: Files<F>) {
    drop(files)
}

// Reads the next entry, of so many bytes. There is none where the file ends.
fn next_entry<const N: usize, R: Read>(file: &mut R) -> Result<Option<[u8; N]>, ListError>
    ensures { IfOk result (λ next. MatchOption next (IsAtEnd (R.remaining file.old))
        (λ entry. Consumes (R.remaining file.old) (R.remaining file.new) entry)) }
{
    let mut entry = [0; N];
    match read_full(file, &mut entry)? {
        n if n == N => Ok(Some(entry)),
        0 => Ok(None),
        _ => Err(ListError::Torn),
    }
}

// Reads an entry, of so many bytes.
pub fn read_entry<const N: usize, R: Read>(file: &mut R) -> Result<[u8; N], ListError>
    ensures { IfOk result (λ entry. Consumes (R.remaining file.old) (R.remaining file.new) entry) }
{
    next_entry(file)?.ok_or(ListError::Torn)
}

// Reads so many bytes to the start of a buffer.
fn read<'b, R: Read>(file: &mut R, buffer: &'b mut [u8], n: usize) -> Result<&'b [u8], ListError>
    ensures len { IfOk result (λ piece. length piece.now ≡ n) }
    ensures bytes { IfOk result (λ piece. Consumes (R.remaining file.old) (R.remaining file.new) piece.now) }
{
    let bytes = buffer.get_mut(..n).ok_or(ListError::Torn)?;
    if read_full(file, bytes)? < n {
        return Err(ListError::Torn);
    }
    Ok(bytes)
}

// Reads the next ticket to the start of a buffer. There is none where the file ends.
pub fn next_ticket<'b, R: Read>(
    file: &mut R,
    buffer: &'b mut [u8],
) -> Result<Option<&'b [u8]>, ListError>
    ensures { IfOk result (λ next. MatchOption next (IsAtEnd (R.remaining file.old))
        (λ ticket. TakesPiece w32 (R.remaining file.old) (R.remaining file.new) ticket.now)) }
{
    let Some(length) = next_entry(file)? else {
        return Ok(None);
    };
    let ticket = read(file, buffer, u32::from_le_bytes(length) as usize)?;
    Ok(Some(ticket))
}

// Reads the next assignment to the start of a buffer.
pub fn next_levels<'b, R: Read>(file: &mut R, buffer: &'b mut [u8]) -> Result<&'b [u8], ListError>
    ensures { IfOk result (λ levels. TakesPiece w16 (R.remaining file.old) (R.remaining file.new) levels.now) }
{
    let length = read_entry(file)?;
    read(file, buffer, u16::from_le_bytes(length).into())
}

// Whether nothing is left to read.
pub fn is_at_end<R: Read>(file: &mut R) -> io::Result<bool>
    ensures { IfOk result (λ ended. IsTrue ended → IsAtEnd (R.remaining file.old)) }
{
    let mut x = [0; 1];
    Ok(read_full(file, &mut x)? == 0)
}
