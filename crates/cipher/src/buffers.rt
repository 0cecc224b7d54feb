//! Places that are written, and those that are read in their stead.

ghost use Rattle.std.specs.Prelude.{◌≡◌, ◌↔◌, ℕ, ◌+◌, ◌-◌, ◌*◌, ◌/◌, ◌<◌, ◌≤◌, IsTrue, IsOk, IfOk, OnOk, length, take, drop, slice_index_or};
ghost use Rattle.std.specs.Simd.{first_chunks};
ghost use Rattle.std.specs.Mem.{FitsInMemory};
ghost use Rattle.cipher.specs.Buffers.{part_of, pick, read_of, read_all, message_of};
ghost use Rattle.standards.specs.Lists.{xor_bytes};

use crate::xor::xor_in_place;
use std::fmt;

/// One place: it is read and written, or another place is read.
#[derive(Drop)]
pub struct InOut<'i, 'o, T> {
    /// The place that is written.
    pub output: &'o mut T,
    /// The place that is read, or nothing where that is the output.
    pub input: &'i [T],
}

/// A slice: it is read and written, or another slice of its length is read.
#[derive(Drop)]
pub struct InOutBuf<'i, 'o, T> {
    /// The slice that is written.
    pub output: &'o mut [T],
    /// The slice that is read, as long as the output, or nothing where that is the output.
    pub input: &'i [T],
}

/// A message and a slice with room for the output made of it.
#[derive(Drop)]
pub struct InOutBufReserved<'i, 'o, T> {
    /// The slice that is written.
    pub output: &'o mut [T],
    /// The message, or nothing where it is a prefix of the output.
    pub input: &'i [T],
    /// The length of the message.
    pub len: usize,
}

/// An input and an output of different lengths.
#[derive(Clone, Copy, Debug, PartialEq, Eq)]
pub struct NotEqualError;

/// An output that is shorter than its message.
#[derive(Clone, Copy, Debug, PartialEq, Eq)]
pub struct OutIsTooSmallError;

impl<'i, 'o, T> From<&'o mut T> for InOut<'i, 'o, T> {
    ghost from_gives = { λ x b. (b.output.ghost_name ≡ x.ghost_name) × (b.output.now ≡ x.now) × (read_of b ≡ x.now) };

    fn from(output: &'o mut T) -> Self {
        InOut { output, input: &[] }
    }
}

impl<'i, 'o, T> InOut<'i, 'o, T> {
    /// A place that is read and one that is written.
    pub fn new(input: &'i T, output: &'o mut T) -> Self
        requires { FitsInMemory T.row }
        ensures read { read_of result ≡ input.now }
        ensures same_reference { result.output.ghost_name ≡ output.entry.ghost_name }
        ensures written { result.output.now ≡ output.entry.now }
    {
        InOut {
            output,
            input: std::slice::from_ref(input),
        }
    }

    /// The place that is read.
    pub fn get_in(&self) -> &T
        ensures value { result.now ≡ read_of self.now }
    {
        match self.input.first() {
            Some(input) => input,
            None => &*self.output,
        }
    }

    /// The place that is written.
    pub fn get_out(&mut self) -> &mut T
        ensures value { result.now ≡ self.old.output.now }
    {
        &mut *self.output
    }

    /// The same places, lent for a while.
    pub fn reborrow(&mut self) -> InOut<'_, '_, T>
        ensures read { read_of result ≡ read_of self.old }
        ensures written { result.output.now ≡ self.old.output.now }
    {
        let input = self.input;
        let output = &mut *self.output;
        InOut { output, input }
    }
}

impl<T, const N: usize> InOut<'_, '_, [T; N]> {
    /// One of N places, the place being below N.
    pub fn get(&mut self, pos: usize) -> InOut<'_, '_, T>
        requires { pos < N }
        ensures read { read_of result ≡ slice_index_or (read_of self.old) pos result.output.now }
        ensures written { result.output.now ≡ slice_index_or self.old.output.now pos result.output.now }
    {
        let input = match self.input.first() {
            Some(input) => {
                let places = &input[..];
                &places[pos..pos + 1]
            }
            None => &[],
        };
        let whole = &mut *self.output;
        InOut {
            output: item(whole, pos),
            input,
        }
    }
}

impl<const N: usize> InOut<'_, '_, [u8; N]> {
    /// Writes the bytes that are read xor these.
    pub fn xor_in2out(&mut self, bytes: &[u8; N])
        ensures kept { self.new.output.ghost_name ≡ self.old.output.ghost_name }
        ensures reads { self.new.input ≡ self.old.input }
        ensures value { self.new.output.now ≡ xor_bytes (read_of self.old) bytes.now }
    {
        xor_array(&mut *self.output, self.input, bytes);
    }
}

impl<'i, 'o, T> From<&'o mut [T]> for InOutBuf<'i, 'o, T> {
    ghost from_gives = { λ x b. (b.output.ghost_name ≡ x.ghost_name) × (b.output.now ≡ x.now) × (read_all b ≡ x.now) };

    fn from(output: &'o mut [T]) -> Self {
        InOutBuf { output, input: &[] }
    }
}

impl<'i, 'o, T> InOutBuf<'i, 'o, T> {
    /// A slice that is read and one that is written.
    ///
    /// # Errors
    /// `NotEqualError` exactly if their lengths differ.
    pub fn new(input: &'i [T], output: &'o mut [T]) -> Result<Self, NotEqualError>
        ensures ok { IsOk result ↔ (length input.now ≡ length output.entry.now) }
        ensures value { IfOk result (λ b. (read_all b ≡ input.now)
            × (b.output.ghost_name ≡ output.entry.ghost_name) × (b.output.now ≡ output.entry.now)) }
    {
        if input.len() != output.len() {
            return Err(NotEqualError);
        }
        Ok(InOutBuf { output, input })
    }

    /// The number of places.
    pub fn len(&self) -> usize
        ensures value { result ≡ length self.now.output.now }
    {
        self.output.len()
    }

    /// Whether there is no place.
    pub fn is_empty(&self) -> bool
        ensures value { IsTrue result ↔ (length self.now.output.now ≡ 0) }
    {
        self.output.len() == 0
    }

    /// The places that are read.
    pub fn get_in(&self) -> &[T]
        ensures value { result.now ≡ read_all self.now }
    {
        if self.input.len() == self.output.len() {
            self.input
        } else {
            &*self.output
        }
    }

    /// The slice that is written.
    pub fn get_out(&mut self) -> &mut [T]
        ensures value { result.now ≡ self.old.output.now }
    {
        &mut *self.output
    }

    /// One place, and the one that is read for it. The place is below the length.
    pub fn get(&mut self, pos: usize) -> InOut<'_, '_, T>
        requires { pos < length self.old.output.now }
        ensures read { read_of result ≡ slice_index_or (read_all self.old) pos result.output.now }
        ensures written { result.output.now ≡ slice_index_or self.old.output.now pos result.output.now }
    {
        let input = part_of(self.input, self.output.len(), pos, pos + 1);
        let whole = &mut *self.output;
        InOut {
            output: item(whole, pos),
            input,
        }
    }

    /// The same places, lent for a while.
    pub fn reborrow(&mut self) -> InOutBuf<'_, '_, T>
        ensures read { read_all result ≡ read_all self.old }
        ensures written { result.output.now ≡ self.old.output.now }
    {
        let input = self.input;
        let output = &mut *self.output;
        InOutBuf { output, input }
    }

    /// The first `mid` places and the rest, `mid` being at most the length.
    pub fn split_at(self, mid: usize) -> (InOutBuf<'i, 'o, T>, InOutBuf<'i, 'o, T>)
        requires { mid ≤ length self.output.now }
        ensures front { read_all result.0 ≡ take mid (read_all self.entry) }
        ensures back { read_all result.1 ≡ drop mid (read_all self.entry) }
        ensures written_front { result.0.output.now ≡ take mid self.entry.output.now }
        ensures written_back { result.1.output.now ≡ drop mid self.entry.output.now }
    {
        let InOutBuf { output, input } = self;
        let n = output.len();
        let input_front = part_of(input, n, 0, mid);
        let input_back = part_of(input, n, mid, n);
        let (front, back) = output.split_at_mut(mid);
        (
            InOutBuf {
                output: front,
                input: input_front,
            },
            InOutBuf {
                output: back,
                input: input_back,
            },
        )
    }

    /// The whole arrays of N places from the front, and the places behind them, N being at least 1.
    pub fn into_chunks<const N: usize>(self) -> (InOutBuf<'i, 'o, [T; N]>, InOutBuf<'i, 'o, T>)
        requires { 1 ≤ N }
        ensures front { read_all result.0 ≡ first_chunks N (length self.entry.output.now / N) (read_all self.entry) }
        ensures back { read_all result.1 ≡ drop (length self.entry.output.now / N * N) (read_all self.entry) }
        ensures written_front { result.0.output.now
            ≡ first_chunks N (length self.entry.output.now / N) self.entry.output.now }
        ensures written_back { result.1.output.now ≡ drop (length self.entry.output.now / N * N) self.entry.output.now }
    {
        let InOutBuf { output, input } = self;
        let n = output.len();
        let (input_chunks, input_rest) = part_of(input, n, 0, n).as_chunks::<N>();
        let (chunks, rest) = output.as_chunks_mut::<N>();
        (
            InOutBuf {
                output: chunks,
                input: input_chunks,
            },
            InOutBuf {
                output: rest,
                input: input_rest,
            },
        )
    }
}

impl InOutBuf<'_, '_, u8> {
    /// Writes the bytes that are read xor these, which are as many.
    pub fn xor_in2out(&mut self, bytes: &[u8])
        requires { length bytes.now ≡ length self.old.output.now }
        ensures kept { self.new.output.ghost_name ≡ self.old.output.ghost_name }
        ensures reads { self.new.input ≡ self.old.input }
        ensures value { self.new.output.now ≡ xor_bytes (read_all self.old) bytes.now }
    {
        xor_slices(&mut *self.output, self.input, bytes);
    }
}

fn xor_array<const N: usize>(output: &mut [u8; N], input: &[[u8; N]], bytes: &[u8; N])
    ensures value { output.new ≡ xor_bytes (slice_index_or input.now 0 output.old) bytes.now }
{
    if let Some(input) = input.first() {
        *output = *input;
    }
    xor_in_place(output, bytes);
}

fn xor_slices(output: &mut [u8], input: &[u8], bytes: &[u8])
    requires { length bytes.now ≡ length output.old }
    ensures value { output.new ≡ xor_bytes (pick input.now output.old) bytes.now }
{
    if input.len() == output.len() {
        output.copy_from_slice(input);
    }
    xor_in_place(output, bytes);
}

impl<'i, 'o, T> InOutBufReserved<'i, 'o, T> {
    /// A message that is the first `len` places of a buffer.
    ///
    /// # Errors
    /// `OutIsTooSmallError` exactly if the buffer has fewer places.
    pub fn from_mut_slice(output: &'o mut [T], len: usize) -> Result<Self, OutIsTooSmallError>
        ensures ok { IsOk result ↔ (len ≤ length output.entry.now) }
        ensures value { IfOk result (λ b. (message_of b ≡ take len output.entry.now) × (b.len ≡ len)
            × (b.output.ghost_name ≡ output.entry.ghost_name) × (b.output.now ≡ output.entry.now)) }
    {
        if len > output.len() {
            return Err(OutIsTooSmallError);
        }
        Ok(InOutBufReserved {
            output,
            input: &[],
            len,
        })
    }

    /// A message and an output.
    ///
    /// # Errors
    /// `OutIsTooSmallError` exactly if the output has fewer places than the message.
    pub fn from_slices(input: &'i [T], output: &'o mut [T]) -> Result<Self, OutIsTooSmallError>
        ensures ok { IsOk result ↔ (length input.now ≤ length output.entry.now) }
        ensures value { IfOk result (λ b. (message_of b ≡ input.now) × (b.len ≡ length input.now)
            × (b.output.ghost_name ≡ output.entry.ghost_name) × (b.output.now ≡ output.entry.now)) }
    {
        if input.len() > output.len() {
            return Err(OutIsTooSmallError);
        }
        Ok(InOutBufReserved {
            output,
            input,
            len: input.len(),
        })
    }

    /// The length of the message.
    pub fn len(&self) -> usize
        ensures value { result ≡ self.now.len }
    {
        self.len
    }

    /// Whether the message is empty.
    pub fn is_empty(&self) -> bool
        ensures value { IsTrue result ↔ (self.now.len ≡ 0) }
    {
        self.len == 0
    }

    /// The message, as far as there is room.
    pub fn get_in(&self) -> &[T]
        ensures value { result.now ≡ message_of self.now }
    {
        let message = front_of(&*self.output, self.len);
        if self.input.len() == message.len() {
            self.input
        } else {
            message
        }
    }

    /// The slice that is written, with its room.
    pub fn get_out(&mut self) -> &mut [T]
        ensures value { result.now ≡ self.old.output.now }
    {
        &mut *self.output
    }

    /// The same message and room, lent for a while.
    pub fn reborrow(&mut self) -> InOutBufReserved<'_, '_, T>
        ensures read { message_of result ≡ message_of self.old }
        ensures same_length { result.len ≡ self.old.len }
        ensures written { result.output.now ≡ self.old.output.now }
    {
        let input = self.input;
        let len = self.len;
        let output = &mut *self.output;
        InOutBufReserved { output, input, len }
    }

    /// The first `mid` places of the message, `mid` being at most its length, and the rest of it with the room.
    pub fn split_at(self, mid: usize) -> (InOutBuf<'i, 'o, T>, InOutBufReserved<'i, 'o, T>)
        requires order { mid ≤ self.len }
        requires room { self.len ≤ length self.output.now }
        ensures front { read_all result.0 ≡ take mid (message_of self.entry) }
        ensures back { message_of result.1 ≡ drop mid (message_of self.entry) }
        ensures back_length { result.1.len ≡ self.entry.len - mid }
        ensures written_front { result.0.output.now ≡ take mid self.entry.output.now }
        ensures written_back { result.1.output.now ≡ drop mid self.entry.output.now }
    {
        let InOutBufReserved { output, input, len } = self;
        let input_front = part_of(input, len, 0, mid);
        let input_back = part_of(input, len, mid, len);
        let (front, back) = output.split_at_mut(mid);
        (
            InOutBuf {
                output: front,
                input: input_front,
            },
            InOutBufReserved {
                output: back,
                input: input_back,
                len: len - mid,
            },
        )
    }

    /// The whole arrays of N places with which the message begins, and its rest with the room, N being at least 1.
    pub fn into_chunks<const N: usize>(
        self,
    ) -> (InOutBuf<'i, 'o, [T; N]>, InOutBufReserved<'i, 'o, T>)
        requires positive { 1 ≤ N }
        requires room { self.len ≤ length self.output.now }
        ensures front { read_all result.0
            ≡ first_chunks N (self.entry.len / N) (take (self.entry.len / N * N) (message_of self.entry)) }
        ensures back { message_of result.1 ≡ drop (self.entry.len / N * N) (message_of self.entry) }
        ensures back_length { result.1.len ≡ self.entry.len - self.entry.len / N * N }
        ensures written_front { result.0.output.now
            ≡ first_chunks N (self.entry.len / N) (take (self.entry.len / N * N) self.entry.output.now) }
        ensures written_back { result.1.output.now ≡ drop (self.entry.len / N * N) self.entry.output.now }
    {
        let whole = self.len / N * N;
        let (front, back) = self.split_at(whole);
        let (chunks, _) = front.into_chunks::<N>();
        (chunks, back)
    }
}

// The first n places, or all where there are fewer.
fn front_of<T>(places: &[T], n: usize) -> &[T]
    ensures { result.now ≡ take n places.now }
{
    if n < places.len() {
        &places[..n]
    } else {
        places
    }
}

fn item<T>(places: &mut [T], pos: usize) -> &mut T
    requires { pos < length places.old }
    ensures value { result.now ≡ slice_index_or places.old pos result.now }
{
    &mut places[pos]
}

/// The part of an input that goes with the places from `at` to before `end` of an output of n.
pub fn part_of<T>(input: &[T], n: usize, at: usize, end: usize) -> &[T]
    requires order { at ≤ end }
    requires within { end ≤ n }
    ensures value { result.now ≡ part_of input.now n at end }
{
    if input.len() == n {
        &input[at..end]
    } else {
        &input[..0]
    }
}
