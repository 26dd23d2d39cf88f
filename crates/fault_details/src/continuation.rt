//! How the beginning of a JSON text can be gone on with.
//!
//! The bytes are followed one by one. Of bytes with which no JSON text begins anything may come out.
use std::alloc::Global;
use tag::Memory;

/// What a string in quotation marks is at.
#[derive(Clone, Copy, Debug)]
enum StringState {
    /// Its bytes.
    Plain,
    /// After a backslash.
    Escape,
    /// After `\u` and so many of its four digits; whether they may make the first half of a pair.
    Digits { count: u8, is_half: bool },
    /// After the first half of a pair, and so many of the six bytes of the second, as `\udc00` has them.
    Half { count: u8 },
}

/// What a number is at.
#[derive(Clone, Copy, Debug)]
enum NumberState {
    /// Its sign.
    Sign,
    /// Its whole part.
    Whole,
    /// Its point.
    Point,
    /// Its fraction.
    Fraction,
    /// The letter of its exponent.
    Letter,
    /// The sign of its exponent.
    ExponentSign { is_negative: bool },
    /// The digits of its exponent.
    Exponent { is_negative: bool },
}

/// What is under way, or comes next.
#[derive(Clone, Copy, Debug)]
enum State {
    /// A value.
    Value,
    /// The first value of an array, or its end.
    FirstValue,
    /// The first name of an object, or its end.
    FirstName,
    /// A name.
    Name,
    /// The colon after a name.
    Colon,
    /// What stands after a value.
    After,
    /// A string, which may be a name.
    Quoted { is_name: bool, state: StringState },
    /// A number.
    Number(NumberState),
    /// `true`, `false` or `null`: what is left of it.
    Literal(&'static [u8]),
}

/// The beginning of a JSON text.
#[derive(Drop)]
struct Beginning {
    state: State,
    /// The bytes that close the brackets that are open.
    closing: Vec<u8>,
}

impl StringState {
    /// After a digit of `\u`, of which so many stood before it.
    fn after_digit(count: u8, is_half: bool, byte: u8) -> StringState {
        let is_half = match count {
            0 => matches!(byte, b'd' | b'D'),
            1 => is_half && matches!(byte, b'8' | b'9' | b'A' | b'B' | b'a' | b'b'),
            _ => is_half,
        };
        if count < 3 {
            StringState::Digits {
                count: count + 1,
                is_half,
            }
        } else if is_half {
            StringState::Half { count: 0 }
        } else {
            StringState::Plain
        }
    }

    /// After the byte.
    fn after(self, byte: u8) -> StringState {
        match self {
            StringState::Plain if byte == b'\\' => StringState::Escape,
            StringState::Escape if byte == b'u' => StringState::Digits {
                count: 0,
                is_half: false,
            },
            StringState::Digits { count, is_half } => {
                StringState::after_digit(count, is_half, byte)
            }
            StringState::Half { count } if count < 5 => StringState::Half { count: count + 1 },
            _ => StringState::Plain,
        }
    }

    /// What it can be gone on with, up to its end.
    fn rest(self) -> &'static [u8] {
        match self {
            StringState::Plain => b"\"",
            StringState::Escape => b"n\"",
            StringState::Digits { count: 0, .. } => b"0000\"",
            StringState::Digits { count: 1, .. } => b"000\"",
            StringState::Digits {
                count: 2,
                is_half: true,
            } => b"00\\udc00\"",
            StringState::Digits { count: 2, .. } => b"00\"",
            StringState::Digits { is_half: true, .. } => b"0\\udc00\"",
            StringState::Digits { .. } => b"0\"",
            StringState::Half { count: 0 } => b"\\udc00\"",
            StringState::Half { count: 1 } => b"udc00\"",
            StringState::Half { count: 2 } => b"dc00\"",
            StringState::Half { count: 3 } => b"c00\"",
            StringState::Half { count: 4 } => b"00\"",
            StringState::Half { .. } => b"0\"",
        }
    }
}

impl NumberState {
    /// After the byte, if it is one of the number.
    fn after(self, byte: u8) -> Option<NumberState> {
        match (self, byte) {
            (NumberState::Sign | NumberState::Whole, b'0'..=b'9') => Some(NumberState::Whole),
            (NumberState::Whole, b'.') => Some(NumberState::Point),
            (NumberState::Point | NumberState::Fraction, b'0'..=b'9') => {
                Some(NumberState::Fraction)
            }
            (NumberState::Whole | NumberState::Fraction, b'E' | b'e') => Some(NumberState::Letter),
            (NumberState::Letter, b'+' | b'-') => Some(NumberState::ExponentSign {
                is_negative: byte == b'-',
            }),
            (NumberState::Letter, b'0'..=b'9') => Some(NumberState::Exponent {
                is_negative: false,
            }),
            (
                NumberState::ExponentSign { is_negative } | NumberState::Exponent { is_negative },
                b'0'..=b'9',
            ) => Some(NumberState::Exponent { is_negative }),
            _ => None,
        }
    }

    /// What it can be gone on with, up to its end: as long as its exponent is open, so that it is small, as a number
    /// of many digits has to be.
    fn rest(self) -> &'static [u8] {
        match self {
            NumberState::Sign => b"0",
            NumberState::Whole | NumberState::Fraction => b"e-99999",
            NumberState::Point => b"0e-99999",
            NumberState::Letter => b"-99999",
            NumberState::ExponentSign { is_negative: true }
            | NumberState::Exponent { is_negative: true } => b"99999",
            NumberState::ExponentSign { .. } => b"0",
            NumberState::Exponent { .. } => b"",
        }
    }
}

impl State {
    /// After the first byte of a value that has no brackets.
    fn of_first(byte: u8) -> State {
        match byte {
            b'"' => State::Quoted {
                is_name: false,
                state: StringState::Plain,
            },
            b'-' => State::Number(NumberState::Sign),
            b't' => State::Literal(b"rue"),
            b'f' => State::Literal(b"alse"),
            b'n' => State::Literal(b"ull"),
            _ => State::Number(NumberState::Whole),
        }
    }

    /// After a byte of a string.
    fn after_quoted(is_name: bool, state: StringState, byte: u8) -> State {
        match state {
            StringState::Plain if byte == b'"' && is_name => State::Colon,
            StringState::Plain if byte == b'"' => State::After,
            _ => State::Quoted {
                is_name,
                state: state.after(byte),
            },
        }
    }

    /// What it can be gone on with, up to the end of a value.
    fn rest(self) -> &'static [u8] {
        match self {
            State::Value => b"0",
            State::FirstValue | State::FirstName | State::After => b"",
            State::Name => b"\"\":0",
            State::Colon => b":0",
            State::Quoted { state, .. } => state.rest(),
            State::Number(number) => number.rest(),
            State::Literal(rest) => rest,
        }
    }
}

impl Beginning {
    /// No byte yet.
    fn new(alloc: Global) -> Beginning {
        Beginning {
            state: State::Value,
            closing: Vec::new(alloc),
        }
    }

    /// Opens a bracket.
    fn open(&mut self, closing: u8, state: State) -> Result<(), Memory> {
        self.closing.push(closing)?;
        self.state = state;
        Ok(())
    }

    /// Takes a byte that stands outside strings, numbers and literals.
    fn step_outside(&mut self, byte: u8) -> Result<(), Memory> {
        match (self.state, byte) {
            (_, b' ' | b'\t' | b'\n' | b'\r') => {}
            (_, b']' | b'}') => {
                self.closing.pop();
                self.state = State::After;
            }
            (State::Value | State::FirstValue, b'[') => self.open(b']', State::FirstValue)?,
            (State::Value | State::FirstValue, b'{') => self.open(b'}', State::FirstName)?,
            (State::Value | State::FirstValue, _) => self.state = State::of_first(byte),
            (State::Name | State::FirstName, b'"') => {
                self.state = State::Quoted {
                    is_name: true,
                    state: StringState::Plain,
                }
            }
            (State::Colon, b':') => self.state = State::Value,
            (State::After, b',') if self.closing.last() == Some(&b']') => {
                self.state = State::Value
            }
            (State::After, b',') => self.state = State::Name,
            _ => {}
        }
        Ok(())
    }

    /// Takes a byte of a number, or the one after it.
    fn step_number(&mut self, number: NumberState, byte: u8) -> Result<(), Memory> {
        match number.after(byte) {
            Some(number) => {
                self.state = State::Number(number);
                Ok(())
            }
            None => {
                self.state = State::After;
                self.step_outside(byte)
            }
        }
    }

    /// Takes the next byte.
    fn step(&mut self, byte: u8) -> Result<(), Memory> {
        match self.state {
            State::Quoted { is_name, state } => {
                self.state = State::after_quoted(is_name, state, byte)
            }
            State::Number(number) => self.step_number(number, byte)?,
            State::Literal(rest) => {
                self.state = if rest.len() > 1 {
                    State::Literal(&rest[1..])
                } else {
                    State::After
                }
            }
            _ => self.step_outside(byte)?,
        }
        Ok(())
    }

    /// Adds what it can be gone on with, up to its end.
    fn append_rest(&self, text: &mut Vec<u8>) -> Result<(), Memory> {
        text.extend_from_slice(self.state.rest())?;
        if let State::Quoted { is_name: true, .. } = self.state {
            text.extend_from_slice(b":0")?;
        }
        for byte in self.closing.iter().rev() {
            text.push(*byte)?;
        }
        Ok(())
    }
}

/// What the bytes can be gone on with to a JSON text, if one begins with them.
pub(crate) fn continuation(alloc: Global, bytes: &[u8]) -> Result<Vec<u8>, Memory> {
    let mut beginning = Beginning::new(alloc);
    for byte in bytes {
        beginning.step(*byte)?;
    }
    let mut text = Vec::new(alloc);
    beginning.append_rest(&mut text)?;
    Ok(text)
}
