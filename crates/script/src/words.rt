// The words of a line, read one by one as what they stand for.
ghost use Rattle.std.specs.Ordering.{partial_le};
ghost use Rattle.std.specs.Prelude.{◌≡◌, IfOk, true};

use crate::faults::Fault;
use std::str::SplitAsciiWhitespace;

#[derive(Drop)]
pub struct Words<'a> {
    rest: SplitAsciiWhitespace<'a>,
}

impl<'a> Words<'a> {
    pub fn of(line: &'a str) -> Words<'a> {
        Words {
            rest: line.split_ascii_whitespace(),
        }
    }

    // The first word, if the line has any.
    pub fn first(&mut self) -> Option<&'a str> {
        self.rest.next()
    }

    pub fn word(&mut self, part: &'static str) -> Result<&'a str, Fault> {
        self.rest.next().ok_or(Fault::Missing(part))
    }

    // By cases, since here it is good that there is none.
    pub fn end(&mut self) -> Result<(), Fault> {
        match self.rest.next() {
            Some(_) => Err(Fault::Surplus),
            None => Ok(()),
        }
    }

    // Digits alone, without a sign; a number of any width. All are read as 64 bits, by one reader, which is then made for its radix: with a
    // reader for each width long numbers took 1.7 times as long. The digits are looked at again only where no number comes of it.
    pub fn number<T: TryFrom<u64> + PartialOrd + Copy>(
        &mut self,
        part: &'static str,
        most: T,
    ) -> Result<T, Fault>
    where
        T::Error: Drop,
        u64: From<T>,
        ensures { IfOk result (λ n. partial_le T.partial_cmp n most ≡ true) }
    {
        let word = self.word(part)?;
        word.parse::<u64>()
            .ok()
            .filter(|_| !word.starts_with('+'))
            .and_then(|read| T::try_from(read).ok())
            .filter(|read| *read <= most)
            .ok_or_else(|| {
                if word.bytes().all(|letter| letter.is_ascii_digit()) {
                    Fault::TooLarge(part, u64::from(most))
                } else {
                    Fault::NotNumber(part)
                }
            })
    }

    // Octets, two digits each, into a buffer; `-` stands for none.
    pub fn octets<'b>(
        &mut self,
        part: &'static str,
        octets: &'b mut Vec<u8>,
    ) -> Result<&'b [u8], Fault> {
        let word = self.word(part)?;
        let digits = if word == "-" { "" } else { word };
        octets.clear();
        for pair in digits.as_bytes().chunks(2) {
            let [high, low] = pair else {
                return Err(Fault::HalfOctet(part));
            };
            octets.push(octet(*high, *low).ok_or(Fault::NotOctets(part))?)?;
        }
        Ok(octets.as_slice())
    }

    // Exactly N octets.
    pub fn array<const N: usize>(
        &mut self,
        part: &'static str,
        octets: &mut Vec<u8>,
    ) -> Result<[u8; N], Fault> {
        <[u8; N]>::try_from(self.octets(part, octets)?).map_err(|_| Fault::WrongLength(part, N))
    }

    pub fn session(&mut self) -> Result<u16, Fault> {
        let [a, b, c, d] = self.word("session")?.as_bytes() else {
            return Err(Fault::NotSession);
        };
        octet(*a, *b)
            .zip(octet(*c, *d))
            .map(|(high, low)| u16::from_be_bytes([high, low]))
            .ok_or(Fault::NotSession)
    }
}

// Two hexadecimal digits, in capitals or not.
fn octet(high: u8, low: u8) -> Option<u8> {
    let high = char::from(high).to_digit(16)?;
    let low = char::from(low).to_digit(16)?;
    u8::try_from(high << 4 | low).ok()
}
