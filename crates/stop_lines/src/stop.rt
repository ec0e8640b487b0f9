ghost use Rattle.std.specs.Prelude.{◌≡◌, ◌≤◌, ◌+◌, ◌++◌, length};
ghost use Rattle.arrayvec.specs.ArrayString.{array_string_len};
ghost use Rattle.stop_lines.specs.declared.stop.Stop.TheVariants.{NoMemory};
ghost use Rattle.stop_lines.specs.Stops.{stop_of, line_of, kind_name_of, status_of};
ghost use Rattle.program_words.specs.Texts.{vertex_line, too_large_line, too_many_unions_line, count_too_large_line, balance_too_large_line, grow_too_large_line};

use crate::status::Status;
use arrayvec::ArrayString;
use itoa::{Buffer, Integer};
use metis_reader::{Fault, FaultKind, ReadRefusal};
use std::alloc::AllocError;

const USAGE_LINE: &str = "usage: mincut JOB [U V] [--workers N]\n";

const READ_FAILED_LINE: &str = "read failed\n";

const OUT_OF_MEMORY_LINE: &str = "out of memory\n";

/// A line for `err`. It has room for the longest text, and takes no memory.
pub type Line = ArrayString<128>;

/// Why there is nothing to write to `out`.
#[derive(Clone, Copy, Debug, PartialEq, Eq)]
pub enum Stop {
    BadWords,
    Refused(Fault),
    ReadFailed,
    NoMemory,
    /// The job names a vertex that is not of 1 to n.
    BadVertex { vertex: u64, n: u32 },
    /// The list has too many cuts: their number times n is above 2^30.
    TooLarge { cuts: u64, n: u32 },
    /// The graph has too many components: the number of its minimum cuts times n is above 2^30.
    TooManyUnions { components: u32, n: u32 },
    /// The graph has more than 127 components.
    CountTooLarge { components: u32 },
    /// The number of components times one more than the sum of all masses is above 2^32.
    BalanceTooLarge { components: u32, total: u128 },
    /// After the insertion with this number, counted from 1, the graph exceeds the limits for the
    /// first time.
    GrowTooLarge { number: usize },
}

impl From<ReadRefusal> for Stop {
    ghost from_gives = { λ refusal stop. stop ≡ stop_of refusal };

    fn from(refusal: ReadRefusal) -> Stop {
        match refusal {
            ReadRefusal::Fault(fault) => Stop::Refused(fault),
            ReadRefusal::NoMemory => Stop::NoMemory,
        }
    }
}

impl From<AllocError> for Stop {
    ghost from_gives = { λ _ stop. stop ≡ NoMemory };

    fn from(_: AllocError) -> Stop {
        Stop::NoMemory
    }
}

/// A line with one text.
fn plain_line(text: &str) -> Line
    requires { length text.now ≤ 128 }
    ensures { result.bytes ≡ text.now }
{
    let mut line = Line::new();
    line.push_str(text);
    line
}

/// Appends a number in decimal.
fn put_number<I: Integer>(line: &mut Line, number: I)
    requires room { array_string_len line.old + 40 ≤ 128 }
    ensures bytes { line.new.bytes ≡ line.old.bytes ++ I.text number }
    ensures len { array_string_len line.new ≤ array_string_len line.old + 40 }
{
    let mut buffer = Buffer::new();
    line.push_str(buffer.format(number));
}

/// The line that names a fault.
fn refused_line(fault: Fault) -> Line
    ensures { result.bytes ≡ line_of (Stop.Refused fault) }
{
    let mut line = Line::new();
    line.push_str("refused: ");
    line.push_str(kind_name(fault.kind));
    line.push_str(" at line ");
    put_number(&mut line, fault.line);
    line.push_str("\n");
    line
}

/// The line that names a vertex that is not there.
fn vertex_text(vertex: u64, n: u32) -> Line
    ensures { result.bytes ≡ vertex_line vertex n }
{
    let mut line = Line::new();
    line.push_str("vertex ");
    put_number(&mut line, vertex);
    line.push_str(" not in 1..");
    put_number(&mut line, n);
    line.push_str("\n");
    line
}

/// The line that says how large a list is.
fn too_large_text(cuts: u64, n: u32) -> Line
    ensures { result.bytes ≡ too_large_line cuts n }
{
    let mut line = Line::new();
    line.push_str("list too large: ");
    put_number(&mut line, cuts);
    line.push_str(" cuts, ");
    put_number(&mut line, n);
    line.push_str(" vertices\n");
    line
}

/// The line that says that this many components have too many minimum cuts for a list.
fn too_many_unions_text(components: u32, n: u32) -> Line
    ensures { result.bytes ≡ too_many_unions_line components n }
{
    let mut line = Line::new();
    line.push_str("list too large: 2^");
    put_number(&mut line, components.saturating_sub(1));
    line.push_str("-1 cuts, ");
    put_number(&mut line, n);
    line.push_str(" vertices\n");
    line
}

/// The line that says that this many components have too many minimum cuts to count.
fn count_too_large_text(components: u32) -> Line
    ensures { result.bytes ≡ count_too_large_line components }
{
    let mut line = Line::new();
    line.push_str("count too large: ");
    put_number(&mut line, components);
    line.push_str(" components\n");
    line
}

/// The line that says that components with this total mass are too large for a search of the best
/// cut.
fn balance_too_large_text(components: u32, total: u128) -> Line
    ensures { result.bytes ≡ balance_too_large_line components total }
{
    let mut line = Line::new();
    line.push_str("balance too large: ");
    put_number(&mut line, components);
    line.push_str(" components, weight ");
    put_number(&mut line, total);
    line.push_str("\n");
    line
}

/// The line that names the first insertion after which the graph is too large.
fn grow_too_large_text(number: usize) -> Line
    ensures { result.bytes ≡ grow_too_large_line number }
{
    let mut line = Line::new();
    line.push_str("grow too large at edge ");
    put_number(&mut line, number);
    line.push_str("\n");
    line
}

/// The line that reports a stop. It takes no memory.
pub fn line_for(stop: Stop) -> Line
    ensures { result.bytes ≡ line_of stop }
{
    match stop {
        Stop::BadWords => plain_line(USAGE_LINE),
        Stop::Refused(fault) => refused_line(fault),
        Stop::ReadFailed => plain_line(READ_FAILED_LINE),
        Stop::NoMemory => plain_line(OUT_OF_MEMORY_LINE),
        Stop::BadVertex { vertex, n } => vertex_text(vertex, n),
        Stop::TooLarge { cuts, n } => too_large_text(cuts, n),
        Stop::TooManyUnions { components, n } => too_many_unions_text(components, n),
        Stop::CountTooLarge { components } => count_too_large_text(components),
        Stop::BalanceTooLarge { components, total } => balance_too_large_text(components, total),
        Stop::GrowTooLarge { number } => grow_too_large_text(number),
    }
}

/// The status with which a stopped run ends, if its line was written.
pub fn status_for(stop: Stop) -> Status
    ensures { result ≡ status_of stop }
{
    match stop {
        Stop::BadWords => Status::BadWords,
        Stop::Refused(_) => Status::Refused,
        Stop::ReadFailed => Status::ReadFault,
        Stop::NoMemory => Status::OutOfMemory,
        Stop::BadVertex { .. } => Status::BadVertex,
        Stop::TooLarge { .. } | Stop::TooManyUnions { .. } => Status::ListTooLarge,
        Stop::CountTooLarge { .. } => Status::CountTooLarge,
        Stop::BalanceTooLarge { .. } => Status::BalanceTooLarge,
        Stop::GrowTooLarge { .. } => Status::GrowTooLarge,
    }
}

fn kind_name(kind: FaultKind) -> &'static str
    ensures name { result.now ≡ kind_name_of kind }
    ensures short { length result.now ≤ 15 }
{
    match kind {
        FaultKind::NoHeader => "NoHeader",
        FaultKind::HeaderWords => "HeaderWords",
        FaultKind::BadNumber => "BadNumber",
        FaultKind::BadFormat => "BadFormat",
        FaultKind::TooManyVertices => "TooManyVertices",
        FaultKind::TooManyEdges => "TooManyEdges",
        FaultKind::BadConstraints => "BadConstraints",
        FaultKind::NeighbourRange => "NeighbourRange",
        FaultKind::SelfLoop => "SelfLoop",
        FaultKind::ZeroWeight => "ZeroWeight",
        FaultKind::WordMissing => "WordMissing",
        FaultKind::TooManyEntries => "TooManyEntries",
        FaultKind::ExtraLine => "ExtraLine",
        FaultKind::WeightSum => "WeightSum",
        FaultKind::InputTooLong => "InputTooLong",
        FaultKind::MissingLines => "MissingLines",
        FaultKind::TooFewEntries => "TooFewEntries",
        FaultKind::Repeated => "Repeated",
        FaultKind::Unsymmetric => "Unsymmetric",
    }
}
