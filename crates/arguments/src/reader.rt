//! The text of arguments, byte by byte.
ghost use Rattle.std.specs.Prelude.{◌≡◌, ◌+◌, ◌-◌, ◌<◌, ◌≤◌, ◌==◌, ◌*◌, length, drop, slice_get, true, Some, None, false, IfOk, OnOk, IfErr, MatchBool, MatchOption};
ghost use Rattle.std.specs.Char.{is_ascii_digit};
ghost use Rattle.ir_forms.specs.Shapes.{most_cells};
ghost use Rattle.ir_forms.specs.declared.args.Arg.TheVariants as arg;
ghost use Rattle.arguments.specs.declared.reader.Part.TheVariants.{Behind, Minus, NextSize};
ghost use Rattle.arguments.specs.Grammar as spec;
ghost use Rattle.arguments.specs.Grammar.{Whole};
ghost use Rattle.arguments.specs.Answers.{IsBad, IsRead, Takes};

use crate::faults::ArgsBad;
use crate::shapes::cell_count;
use ir_forms::{Arg, Scalar};
use lists::Items;
use std::alloc::{AllocError, Global};
use std::marker::Model;
use std::mem;

/// Where a value stands: it is an argument, a buffer's cell, or what fills a buffer.
#[derive(Clone, Copy)]
pub enum Place {
    Argument,
    Cell,
    Filler,
}

/// What the last bytes are.
#[derive(Clone, Copy)]
pub enum Part {
    /// There are none.
    Start,
    /// A comma behind an argument.
    Argument,
    /// What a value follows.
    Value(Place),
    Minus(Place),
    Digits {
        place: Place,
        negative: bool,
        magnitude: u64,
    },
    /// So many letters of a truth.
    Letters {
        place: Place,
        truth: bool,
        len: usize,
    },
    /// The bracket that opens a buffer.
    Sizes,
    /// Digits of a size.
    Size(u32),
    NextSize,
    /// The colon behind the sizes.
    Cells,
    /// The bracket that closes a buffer.
    Behind,
}

/// The arguments that are whole, the sizes and the values of a buffer that isn't, and what the last
/// bytes are.
#[derive(Drop)]
struct Front {
    args: Items<Arg>,
    dims: Items<u32>,
    wanted: u32,
    values: Items<Scalar>,
    part: Part,
}

impl Model for Front {
    ghost use Rattle.arguments.specs.Grammar as spec;

    ghost Value = { spec.Front };

    ghost view = { λ f. record { args = f.args; dims = f.dims; wanted = f.wanted; values = f.values; part = f.part } };
}

fn as_arg(value: Scalar) -> Arg
    ensures { result ≡ spec.as_arg value }
{
    match value {
        Scalar::Number {
            negative,
            magnitude,
        } => Arg::Number {
            negative,
            magnitude,
        },
        Scalar::Truth(truth) => Arg::Truth(truth),
    }
}

fn letters(truth: bool) -> &'static [u8]
    ensures { result.now ≡ spec.letters truth }
{
    if truth { b"true" } else { b"false" }
}

/// The number with one digit more, where it is in range.
fn with_digit(negative: bool, magnitude: u64, byte: u8) -> Option<u64>
    requires { is_ascii_digit byte ≡ true }
    ensures { MatchOption result
        (spec.in_range negative (magnitude * 10 + spec.digit byte) ≡ false)
        (λ n. (n ≡ magnitude * 10 + spec.digit byte) × (spec.in_range negative (magnitude * 10 + spec.digit byte) ≡ true)) }
{
    let number = magnitude
        .checked_mul(10)?
        .checked_add((byte - b'0') as u64)?;
    if negative && number > 9_223_372_036_854_775_808 {
        None
    } else {
        Some(number)
    }
}

/// The size with one digit more, where it isn't over the limit.
fn longer_size(size: u32, byte: u8) -> Option<u32>
    requires { is_ascii_digit byte ≡ true }
    ensures { MatchOption result
        (most_cells < size * 10 + spec.digit byte)
        (λ n. (n ≡ size * 10 + spec.digit byte) × (n ≤ most_cells)) }
{
    let size = size.checked_mul(10)?.checked_add((byte - b'0') as u32)?;
    if size <= 16_777_216 { Some(size) } else { None }
}

impl Front {
    fn go(&mut self, part: Part)
        ensures { self.new ≡ spec.part_after self.old part }
    {
        self.part = part;
    }

    /// Adds a whole argument.
    fn add(&mut self, arg: Arg, part: Part) -> Result<(), AllocError>
        ensures { OnOk result (self.new ≡ spec.with_arg arg part self.old) }
    {
        self.args.push(arg)?;
        self.dims.truncate(0);
        self.wanted = 0;
        self.values.truncate(0);
        self.part = part;
        Ok(())
    }

    /// Adds a buffer with these cells behind those that were read.
    fn add_cells(&mut self, alloc: Global) -> Result<(), AllocError>
        ensures { OnOk result (self.new ≡ spec.with_arg (arg.Cells self.old.dims self.old.values) Behind self.old) }
    {
        let dims = mem::replace(&mut self.dims, Items::new(alloc));
        let values = mem::replace(&mut self.values, Items::new(alloc));
        self.add(Arg::Cells { dims, values }, Part::Behind)
    }

    fn add_fill(&mut self, alloc: Global, value: Scalar) -> Result<(), AllocError>
        ensures { OnOk result (self.new ≡ spec.with_arg (arg.Fill self.old.dims value) Behind self.old) }
    {
        let dims = mem::replace(&mut self.dims, Items::new(alloc));
        self.add(Arg::Fill { dims, value }, Part::Behind)
    }

    fn begin_value(&mut self, place: Place, byte: u8) -> bool
        ensures { Takes result (spec.begins_value place byte self.old) self.new }
    {
        if byte.is_ascii_digit() {
            self.go(Part::Digits {
                place,
                negative: false,
                magnitude: (byte - b'0') as u64,
            });
            return true;
        }
        match byte {
            b'-' => self.go(Part::Minus(place)),
            b't' => self.go(Part::Letters {
                place,
                truth: true,
                len: 1,
            }),
            b'f' => self.go(Part::Letters {
                place,
                truth: false,
                len: 1,
            }),
            _ => return false,
        }
        true
    }

    fn begin_argument(&mut self, byte: u8) -> bool
        ensures { Takes result (spec.begins_argument byte self.old) self.new }
    {
        if byte == b'[' {
            self.go(Part::Sizes);
            return true;
        }
        self.begin_value(Place::Argument, byte)
    }

    fn end_cell(&mut self, alloc: Global, value: Scalar, byte: u8) -> Result<bool, AllocError>
        ensures { IfOk result (λ went. Takes went (spec.ends_cell value byte self.old) self.new) }
    {
        let wanted = self.wanted as usize;
        let len = self.values.len();
        let is_last = len < wanted && len + 1 == wanted;
        let is_inner = len < wanted && len + 1 < wanted;
        if byte == b',' && is_inner {
            self.values.push(value)?;
            self.go(Part::Value(Place::Cell));
            return Ok(true);
        }
        if byte == b']' && is_last {
            self.values.push(value)?;
            self.add_cells(alloc)?;
            return Ok(true);
        }
        Ok(false)
    }

    fn end_value(
        &mut self,
        alloc: Global,
        place: Place,
        value: Scalar,
        byte: u8,
    ) -> Result<bool, AllocError>
        ensures { IfOk result (λ went. Takes went (spec.ends_value place value byte self.old) self.new) }
    {
        match place {
            Place::Argument => {
                if byte == b',' {
                    self.add(as_arg(value), Part::Argument)?;
                    return Ok(true);
                }
                Ok(false)
            }
            Place::Cell => self.end_cell(alloc, value, byte),
            Place::Filler => {
                if byte == b']' {
                    self.add_fill(alloc, value)?;
                    return Ok(true);
                }
                Ok(false)
            }
        }
    }

    fn after_digits(
        &mut self,
        alloc: Global,
        place: Place,
        negative: bool,
        magnitude: u64,
        byte: u8,
    ) -> Result<bool, AllocError>
        ensures { IfOk result (λ went. Takes went (spec.after_digits place negative magnitude byte self.old) self.new) }
    {
        if !byte.is_ascii_digit() {
            return self.end_value(
                alloc,
                place,
                Scalar::Number {
                    negative,
                    magnitude,
                },
                byte,
            );
        }
        match with_digit(negative, magnitude, byte) {
            Some(magnitude) => {
                self.go(Part::Digits {
                    place,
                    negative,
                    magnitude,
                });
                Ok(true)
            }
            None => Ok(false),
        }
    }

    fn after_letters(
        &mut self,
        alloc: Global,
        place: Place,
        truth: bool,
        len: usize,
        byte: u8,
    ) -> Result<bool, AllocError>
        ensures { IfOk result (λ went. Takes went (spec.after_letters place truth len (slice_get (spec.letters truth) len) byte self.old) self.new) }
    {
        match letters(truth).get(len) {
            None => self.end_value(alloc, place, Scalar::Truth(truth), byte),
            Some(letter) => {
                if *letter == byte {
                    self.go(Part::Letters {
                        place,
                        truth,
                        len: len + 1,
                    });
                    return Ok(true);
                }
                Ok(false)
            }
        }
    }

    fn end_sizes(&mut self) -> bool
        ensures { Takes result (spec.ends_sizes self.old.dims self.old) self.new }
    {
        match cell_count(self.dims.as_slice()) {
            Some(cells) => {
                self.wanted = cells;
                self.part = Part::Cells;
                true
            }
            None => false,
        }
    }

    fn begin_sizes(&mut self, byte: u8) -> bool
        ensures { Takes result (spec.begins_sizes byte self.old) self.new }
    {
        if byte.is_ascii_digit() {
            self.go(Part::Size((byte - b'0') as u32));
            return true;
        }
        if byte == b':' {
            return self.end_sizes();
        }
        false
    }

    fn after_size(&mut self, size: u32, byte: u8) -> Result<bool, AllocError>
        ensures { IfOk result (λ went. Takes went (spec.after_size size byte self.old) self.new) }
    {
        if byte.is_ascii_digit() {
            return Ok(match longer_size(size, byte) {
                Some(size) => {
                    self.go(Part::Size(size));
                    true
                }
                None => false,
            });
        }
        if byte == b'x' {
            self.dims.push(size)?;
            self.go(Part::NextSize);
            return Ok(true);
        }
        if byte == b':' {
            self.dims.push(size)?;
            return Ok(self.end_sizes());
        }
        Ok(false)
    }

    fn begin_cells(&mut self, alloc: Global, byte: u8) -> Result<bool, AllocError>
        ensures { IfOk result (λ went. Takes went (spec.begins_cells byte self.old) self.new) }
    {
        if byte == b'=' {
            self.go(Part::Value(Place::Filler));
            return Ok(true);
        }
        if self.wanted > 0 {
            return Ok(self.begin_value(Place::Cell, byte));
        }
        if byte == b']' {
            self.values.truncate(0);
            self.add_cells(alloc)?;
            return Ok(true);
        }
        Ok(false)
    }

    fn take(&mut self, alloc: Global, byte: u8) -> Result<bool, AllocError>
        ensures { IfOk result (λ went. Takes went (spec.after_byte byte self.old) self.new) }
    {
        match self.part {
            Part::Start | Part::Argument => Ok(self.begin_argument(byte)),
            Part::Value(place) => Ok(self.begin_value(place, byte)),
            Part::Minus(place) => Ok(self.first_digit(place, byte)),
            Part::Digits {
                place,
                negative,
                magnitude,
            } => self.after_digits(alloc, place, negative, magnitude, byte),
            Part::Letters { place, truth, len } => {
                self.after_letters(alloc, place, truth, len, byte)
            }
            Part::Sizes => Ok(self.begin_sizes(byte)),
            Part::Size(size) => self.after_size(size, byte),
            Part::NextSize => Ok(self.next_size(byte)),
            Part::Cells => self.begin_cells(alloc, byte),
            Part::Behind => Ok(self.next_argument(byte)),
        }
    }

    fn first_digit(&mut self, place: Place, byte: u8) -> bool
        ensures { Takes result (spec.after_part (Minus place) byte self.old) self.new }
    {
        if byte.is_ascii_digit() {
            self.go(Part::Digits {
                place,
                negative: true,
                magnitude: (byte - b'0') as u64,
            });
            return true;
        }
        false
    }

    fn next_size(&mut self, byte: u8) -> bool
        ensures { Takes result (spec.after_part NextSize byte self.old) self.new }
    {
        if byte.is_ascii_digit() {
            self.go(Part::Size((byte - b'0') as u32));
            return true;
        }
        false
    }

    fn next_argument(&mut self, byte: u8) -> bool
        ensures { Takes result (spec.after_part Behind byte self.old) self.new }
    {
        if byte == b',' {
            self.go(Part::Argument);
            return true;
        }
        false
    }

    /// Adds the argument that the end of the text makes whole. Whether the text may end here.
    fn end(&mut self) -> Result<bool, AllocError>
        ensures { IfOk result (λ ends. MatchBool ends (spec.whole_args self.old ≡ Some self.new.args) (spec.whole_args self.old ≡ None)) }
    {
        match self.part {
            Part::Start | Part::Behind => Ok(true),
            Part::Digits {
                place: Place::Argument,
                negative,
                magnitude,
            } => {
                self.args.push(Arg::Number {
                    negative,
                    magnitude,
                })?;
                Ok(true)
            }
            Part::Letters {
                place: Place::Argument,
                truth,
                len,
            } => {
                if len == letters(truth).len() {
                    self.args.push(Arg::Truth(truth))?;
                    return Ok(true);
                }
                Ok(false)
            }
            _ => Ok(false),
        }
    }

    /// Takes all bytes, up to the first that can't stand there: its place, or the text's length where
    /// it ends too early.
    #[tactic(auto, using(crate::proofs::ReadLemmas::next_byte, crate::proofs::ReadLemmas::bad_byte))]
    fn take_all(&mut self, alloc: Global, bytes: &[u8]) -> Result<Option<usize>, AllocError>
        ensures { IfOk result (λ at. IsRead (spec.verdict_from 0 self.old bytes.now) at self.new.args) }
    {
        for at in 0..bytes.len() {
            if !self.take(alloc, bytes[at])? {
                return Ok(Some(at));
            }
        }
        if self.end()? {
            Ok(None)
        } else {
            Ok(Some(bytes.len()))
        }
    }
}

/// The arguments that a text says: values and buffers with commas between, as `-5,true,[2x2:1,2,3,4],[8:=0]`.
///
/// # Errors
///
/// `Byte` with the place of the first byte that can't stand there, which is the text's length where it
/// ends too early. `OutOfMemory` where memory runs out.
pub fn read_args(alloc: Global, text: &str) -> Result<Items<Arg>, ArgsBad>
    ensures ok { IfOk result (λ args. spec.verdict text.now ≡ Whole args) }
    ensures err { IfErr result (λ fault. IsBad (spec.verdict text.now) fault) }
{
    read_bytes(alloc, text.as_bytes())
}

/// The same, of a text that is given as its bytes.
///
/// # Errors
///
/// Those of `read_args`.
pub fn read_bytes(alloc: Global, text: &[u8]) -> Result<Items<Arg>, ArgsBad>
    ensures ok { IfOk result (λ args. spec.verdict text.now ≡ Whole args) }
    ensures err { IfErr result (λ fault. IsBad (spec.verdict text.now) fault) }
{
    let mut front = Front {
        args: Items::new(alloc),
        dims: Items::new(alloc),
        wanted: 0,
        values: Items::new(alloc),
        part: Part::Start,
    };
    match front.take_all(alloc, text)? {
        Some(at) => Err(ArgsBad::Byte { at }),
        None => {
            let Front { args, .. } = front;
            Ok(args)
        }
    }
}
