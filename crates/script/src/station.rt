// A gateway with its buffers and its book, as a script works on it.
use crate::answers::Answered;
use crate::book::Book;
use crate::faults::Fault;
use crate::gateways::AnyGateway;
use crate::items::Item;
use crate::settings::Given;
use gateway::Call;
use rules::answers::{Answer, Refusal};
use std::alloc::{AllocError, Global};
use std::io::Write;
use std::{io, mem};

// How long output and work area are until a script says otherwise.
const FIRST_BUFFER: usize = 512;

#[derive(Drop)]
pub struct Station {
    given: Given,
    gateway: Option<AnyGateway>,
    book: Book,
    out: Vec<u8>,
    work: Vec<u8>,
}

impl Station {
    pub fn new(heap: Global) -> Result<Station, AllocError> {
        let out = vec![in heap; 0; FIRST_BUFFER]?;
        let work = vec![in heap; 0; FIRST_BUFFER]?;
        Ok(Station {
            given: Given::default(),
            gateway: None,
            book: Book::new(heap),
            out,
            work,
        })
    }

    // By cases: an item is a value, since a line is read whole before it acts.
    pub fn carry_out<W: Write>(&mut self, item: Item, output: &mut W) -> Result<(), Fault> {
        match item {
            Item::Setting(setting) => self.given.take(setting),
            Item::Make => self.make(output)?,
            Item::Call(call) => self.call(call, output)?,
            Item::Timer => self.print_timer(output)?,
            Item::Buffers { output, work } => {
                self.out.resize(output, 0)?;
                self.work.resize(work, 0)?;
            }
            Item::Book => self.print_book(output)?,
        }
        Ok(())
    }

    // Uses up the settings, also where it is refused; then there is no gateway.
    fn make<W: Write>(&mut self, output: &mut W) -> io::Result<()> {
        let given = mem::take(&mut self.given);
        self.book.clear();
        match AnyGateway::make(&given) {
            Ok(gateway) => {
                self.gateway = Some(gateway);
                writeln!(output, "made")
            }
            Err(refusal) => {
                self.gateway = None;
                print_answer(Err(refusal), &[], output)
            }
        }
    }

    fn call<W: Write>(&mut self, call: Call, output: &mut W) -> Result<(), Fault> {
        let gateway = self.gateway.as_mut().ok_or(Fault::NoGateway)?;
        let out = self.out.as_mut_slice();
        let answer = gateway.carry_out(call, out, self.work.as_mut_slice());
        if let Ok(answer) = answer {
            self.book.enter(answer)?;
        }
        print_answer(answer, self.out.as_slice(), output)?;
        Ok(())
    }

    fn print_timer<W: Write>(&self, output: &mut W) -> Result<(), Fault> {
        let timer = self.gateway.as_ref().ok_or(Fault::NoGateway)?.timer();
        writeln!(output, "timer {timer}")?;
        Ok(())
    }

    fn print_book<W: Write>(&self, output: &mut W) -> Result<(), Fault> {
        self.gateway.as_ref().ok_or(Fault::NoGateway)?;
        let book = &self.book;
        write!(output, "{book}")?;
        Ok(())
    }
}

fn print_answer<W: Write>(
    answer: Result<Answer, Refusal>,
    out: &[u8],
    output: &mut W,
) -> io::Result<()> {
    let answered = Answered { answer, out };
    writeln!(output, "{answered}")
}
