//! The lines that a run prints.

ghost use Rattle.std.specs.Prelude.{◌≡◌, ◌≤◌, ◌+◌, ◌*◌, ◌++◌, length, OnOk, IsErrOf, is_some, codes, decimal};
ghost use Rattle.hex.specs.Hex.{encode_lower};
ghost use Rattle.arrayvec.specs.ArrayVec.{array_vec_len};
ghost use Rattle.std.specs.Io.KnownBytes.{append_known};
ghost use Rattle.sls_io.specs.Faults.{Rose};
ghost use Rattle.sls_io.specs.Sink.{AppendsPrefix, wants_after};
ghost use Rattle.job_run.specs.Report.{line_text, cause_text};
ghost use Rattle.job_run.specs.declared.report.TheConstants.{LINE_BYTES};

use arrayvec::ArrayVec;
use itoa::Buffer;
use job_script::JobCause;
use sls_base::{Entry, Version};
use sls_io::{Sink, SinkError};

/// The bytes of the longest line: `out `, a channel of up to 3 digits, a number of up to 20, the digits of the longest
/// entry, two spaces and LF.
const LINE_BYTES: usize = 142;

/// The hexadecimal digits of the longest entry.
const ENTRY_DIGITS: usize = 112;

/// The text of a line, in room of its own, so that a line takes no memory.
type Text = ArrayVec<u8, LINE_BYTES>;

/// A line that a run prints.
#[derive(Drop)]
pub enum Printed {
    /// A checkpoint made this version.
    Commit(Version),
    /// A checkpoint was asked for, and this version is the last.
    Spent(Version),
    /// The machine runs again, from this version on.
    Up(Version),
    /// The device accepted an entry of a channel.
    Out(u8, Entry),
    /// The channel has no further entry to accept.
    Dry(u8),
    Done,
    Usage,
    /// The job is at fault at a line, with a cause.
    BadJob(u32, JobCause),
    ReadFault,
    Memory,
}

fn cause_name(cause: JobCause) -> &'static str
    ensures { result.now ≡ cause_text cause }
{
    match cause {
        JobCause::TooLong => "TooLong",
        JobCause::Lines => "Lines",
        JobCause::Word => "Word",
        JobCause::Number => "Number",
        JobCause::Hex => "Hex",
        JobCause::Order => "Order",
        JobCause::Draws => "Draws",
        JobCause::NoEnd => "NoEnd",
    }
}

/// Appends bytes that there is room for.
fn append(text: &mut Text, bytes: &[u8])
    requires room { array_vec_len text.old + length bytes.now ≤ LINE_BYTES }
    ensures items { text.new.items ≡ text.old.items ++ bytes.now }
    ensures len { array_vec_len text.new ≡ array_vec_len text.old + length bytes.now }
{
    if text.try_extend_from_slice(bytes).is_err() {
        unreachable!();
    }
}

/// Appends the bytes of an entry in hexadecimal.
fn append_hex(text: &mut Text, bytes: &[u8])
    requires few { length bytes.now ≤ 56 }
    requires room { array_vec_len text.old + 2 * length bytes.now ≤ LINE_BYTES }
    ensures items { text.new.items ≡ text.old.items ++ encode_lower bytes.now }
    ensures len { array_vec_len text.new ≡ array_vec_len text.old + 2 * length bytes.now }
{
    let mut digits = [0; ENTRY_DIGITS];
    let count = 2 * bytes.len();
    if hex::encode_to_slice(bytes, &mut digits[..count]).is_err() {
        unreachable!();
    }
    append(text, &digits[..count]);
}

/// A line that is always the same.
fn constant(line: &[u8]) -> Text
    requires { length line.now ≤ LINE_BYTES }
    ensures { result.items ≡ line.now }
{
    let mut text = Text::new();
    append(&mut text, line);
    text
}

/// A word, a number and the line's end.
fn numbered(word: &[u8], number: u64) -> Text
    requires { length word.now ≤ 10 }
    ensures { result.items ≡ word.now ++ decimal number ++ codes "\n" }
{
    let mut buffer = Buffer::new();
    let mut text = Text::new();
    append(&mut text, word);
    append(&mut text, buffer.format(number).as_bytes());
    append(&mut text, b"\n");
    text
}

/// The line of an entry that the device accepted: its channel, its number, and its bytes in hexadecimal.
fn out_text(channel: u8, entry: &Entry) -> Text
    ensures { result.items
        ≡ codes "out " ++ decimal channel ++ codes " " ++ decimal entry.now.number ++ codes " "
        ++ encode_lower entry.now.bytes.items ++ codes "\n" }
{
    let mut buffer = Buffer::new();
    let mut text = Text::new();
    append(&mut text, b"out ");
    append(&mut text, buffer.format(channel).as_bytes());
    append(&mut text, b" ");
    append(&mut text, buffer.format(entry.number).as_bytes());
    append(&mut text, b" ");
    append_hex(&mut text, entry.bytes.as_slice());
    append(&mut text, b"\n");
    text
}

/// The line of a job that is at fault.
fn bad_job_text(line: u32, cause: JobCause) -> Text
    ensures { result.items ≡ codes "bad job " ++ decimal line ++ codes " " ++ cause_text cause ++ codes "\n" }
{
    let mut buffer = Buffer::new();
    let mut text = Text::new();
    append(&mut text, b"bad job ");
    append(&mut text, buffer.format(line).as_bytes());
    append(&mut text, b" ");
    append(&mut text, cause_name(cause).as_bytes());
    append(&mut text, b"\n");
    text
}

/// The text of a line, with its LF.
fn text_of_line(line: &Printed) -> Text
    ensures { result.items ≡ line_text line.now }
{
    match line {
        Printed::Commit(version) => numbered(b"commit ", *version),
        Printed::Spent(version) => numbered(b"spent ", *version),
        Printed::Up(version) => numbered(b"up ", *version),
        Printed::Out(channel, entry) => out_text(*channel, entry),
        Printed::Dry(channel) => numbered(b"dry ", u64::from(*channel)),
        Printed::Done => constant(b"done\n"),
        Printed::Usage => constant(b"usage\n"),
        Printed::BadJob(line, cause) => bad_job_text(*line, *cause),
        Printed::ReadFault => constant(b"read fault\n"),
        Printed::Memory => constant(b"memory\n"),
    }
}

/// Writes a line in one call, and lets it go. Want of memory is the sink's own: the line itself takes none.
pub fn print<O: Sink>(out: &mut O, line: Printed) -> Result<(), SinkError>
    ensures written { OnOk result (O.written out.new ≡ append_known (O.written out.old) (line_text line)) }
    ensures failed { IsErrOf result SinkError.Failed
        → AppendsPrefix (O.written out.old) (O.written out.new) (line_text line) }
    ensures cause { IsErrOf result SinkError.Failed → Rose (O.faults out.old) (O.faults out.new) }
    ensures memory { IsErrOf result SinkError.Memory → O.written out.new ≡ O.written out.old }
    ensures wants { O.wants out.new ≡ wants_after result (O.wants out.old) }
    ensures told { is_some (O.written out.new) ≡ is_some (O.written out.old) }
    ensures never_falls { O.faults out.old ≤ O.faults out.new }
{
    let text = text_of_line(&line);
    out.write(text.as_slice())
}
