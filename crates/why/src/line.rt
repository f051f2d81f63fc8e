// The line of a message: the number, then what was done, or the check that failed and what it expected.
use programs::Target;
use std::fmt;
use sysex::{Check, Order};

#[derive(Clone, Copy)]
pub(crate) struct Line(pub(crate) Result<Order, Check>);

impl fmt::Display for Line {
    fn fmt<W: fmt::Write>(&self, f: &mut fmt::Formatter<W>) -> fmt::Result {
        let number = sysex::order_number(self.0);
        match self.0 {
            Ok(order) => write!(f, "{number}\t{}", Done(order)),
            Err(check) => write!(f, "{number}\t{}", Failed(check)),
        }
    }
}

#[derive(Clone, Copy)]
struct Done(Order);

impl fmt::Display for Done {
    fn fmt<W: fmt::Write>(&self, f: &mut fmt::Formatter<W>) -> fmt::Result {
        match self.0 {
            Order::Identify(_) => write!(f, "identity answered"),
            Order::Send(target) => write!(f, "{} sent", Named(target)),
            Order::Store(target) => write!(f, "{} stored", Named(target)),
        }
    }
}

#[derive(Clone, Copy)]
struct Named(Target);

impl fmt::Display for Named {
    fn fmt<W: fmt::Write>(&self, f: &mut fmt::Formatter<W>) -> fmt::Result {
        match self.0 {
            Target::One(program) => write!(f, "program {}", Program(program)),
            Target::Edit => write!(f, "edit buffer"),
            Target::All => write!(f, "all programs"),
        }
    }
}

#[derive(Clone, Copy)]
struct Failed(Check);

impl fmt::Display for Failed {
    fn fmt<W: fmt::Write>(&self, f: &mut fmt::Formatter<W>) -> fmt::Result {
        match self.0 {
            Check::TooLong(most) => write!(f, "too long\tat most {most} bytes"),
            Check::Ours(device) => write!(
                f,
                "ours\tF0 7E cc 06 01 F7 or F0 00 01 0C {device:02X} .. F7, with nothing above 0x7F between"
            ),
            Check::OpcodeAndType => write!(
                f,
                "opcode and type\topcode 00 or 01, then type 00, 01 or 02"
            ),
            // Of a form with one length both are the same, and it is told once.
            Check::Length(long, short) if long == short => write!(f, "length\t{long} bytes"),
            Check::Length(long, short) => write!(f, "length\t{long} or {short} bytes"),
            Check::Program(highest) => {
                let shown = Program(highest);
                write!(f, "program\tat most 0x{highest:02X} ({shown})")
            }
            Check::Version(right) => write!(f, "version\t0x{right:02X}"),
            Check::HalfBytes(highest) => write!(f, "half bytes\tat most 0x{highest:02X}"),
            Check::Channel(ours) => write!(f, "channel\t0x{ours:02X} or 0x7F"),
        }
    }
}

// A program as its unit shows it: 0x00 is 1A, 0x23 is 9D.
#[derive(Clone, Copy)]
struct Program(u8);

impl fmt::Display for Program {
    fn fmt<W: fmt::Write>(&self, f: &mut fmt::Formatter<W>) -> fmt::Result {
        let row = char::from(b'1' + self.0 / 4);
        let column = char::from(b'A' + self.0 % 4);
        write!(f, "{row}{column}")
    }
}
