// A writing, told with what it left: the answer, the scratch, the output behind the table, and the table itself, which is then looked
// up, loaded into fresh memory and written again.
use numbers::{RECORD, SET_WORDS};
use refusals::Refused;
use std::{fmt, io};
use telling::change::RawRecord;
use telling::slots::{Lent, Memory};
use telling::tried::{apply_list, look_around, look_around_list};

// Most trials lend at most so many slots, and the words of scratch for them.
pub const SLOTS: usize = 512;

const SCRATCH: usize = SET_WORDS * SLOTS;

// The bytes of output that a trial lends: at most so many, and so many where they are to be more than enough for a few records.
pub const MOST_ROOM: usize = 2048;

pub const ROOM: usize = 64;

// What a byte of the output is before the call.
pub const BLANK: u8 = 238;

// A writing's answer: written or the refusal's number, and the count. (As telling's UpdateAnswer but for a word: as one type each call would
// hand in the word, which is no plainer.)
#[derive(Clone, Copy)]
struct WriteAnswer(Result<usize, Refused>);

impl WriteAnswer {
    // How many records were written, if a table was, be it one of no records.
    fn written(self) -> Option<usize> {
        self.0.ok()
    }
}

impl fmt::Display for WriteAnswer {
    fn fmt<W: fmt::Write>(&self, f: &mut fmt::Formatter<W>) -> fmt::Result {
        match self.0 {
            Ok(count) => write!(f, "written, count {count}"),
            Err(Refused { refusal, count }) => {
                write!(f, "refused {}, count {count}", refusal.number())
            }
        }
    }
}

// The words of scratch that go with so many slots.
pub fn scratch_for(slots: usize) -> usize {
    slots.min(SLOTS) * SET_WORDS
}

fn write_to(lent: &Lent<'_>, scratch: &mut [u64], output: &mut [u8]) -> WriteAnswer {
    WriteAnswer(writing::write(lent.lo, lent.hi, lent.up, lent.hop, scratch, output))
}

// The table that was written, so far as the output has it, and the rest of the output.
fn split_table(answer: WriteAnswer, output: &[u8]) -> (&[u8], &[u8]) {
    let most = output.len() / RECORD;
    let count = answer.written().unwrap_or(0).min(most);
    output.split_at(count * RECORD)
}

// What was made of the scratch, and of the output behind the table.
fn say_left(rt: &impl Print, scratch: &[u64], fill: u64, rest: &[u8]) -> io::Result<()> {
    let scratch_now = if scratch.iter().all(|word| *word == 0) {
        "zero"
    } else if scratch.iter().all(|word| *word == fill) {
        "as it was"
    } else {
        "changed"
    };
    let rest_now = if rest.iter().all(|byte| *byte == BLANK) {
        "as it was"
    } else {
        "changed"
    };
    println!(rt; "; scratch {scratch_now}; rest of output {rest_now}")
}

// Each record byte by byte, and in words.
fn say_table(rt: &impl Print, table: &[u8]) -> io::Result<()> {
    let (records, _) = table.as_chunks::<RECORD>();
    for bytes in records {
        print!(rt; "    ")?;
        for byte in bytes {
            print!(rt; "{byte:02x} ")?;
        }
        println!(rt; "{}", RawRecord::from(*bytes))?;
    }
    Ok(())
}

// The table is loaded into fresh memory and written again.
fn write_again(rt: &impl Print, table: &[u8]) -> io::Result<()> {
    let mut memory = Memory::<SLOTS>::zeroed();
    let lent = &mut memory.lend();
    print!(rt; "    loaded: ")?;
    apply_list(rt, lent, table)?;
    let mut scratch = [0u64; SCRATCH];
    let mut output = [BLANK; MOST_ROOM];
    let answer = write_to(lent, &mut scratch, &mut output);
    let (again, _) = split_table(answer, &output);
    let which = if again == table { "the same" } else { "other" };
    println!(rt; "    again: {answer}, {which} bytes")
}

// The ledger is written, with the scratch and the output that are lent; each word of the scratch was `fill`.
pub fn tell(
    rt: &impl Print,
    lent: &Lent<'_>,
    scratch: &mut [u64],
    output: &mut [u8],
    fill: u64,
) -> io::Result<()> {
    let answer = write_to(lent, scratch, output);
    print!(rt; "  {answer}")?;
    let (table, rest) = split_table(answer, output);
    say_left(rt, scratch, fill, rest)?;
    if answer.written().is_some() {
        say_table(rt, table)?;
        look_around(rt, lent)?;
        look_around_list(rt, table)?;
        write_again(rt, table)?;
    }
    Ok(())
}

// What is lent to a writing beside the memory: a scratch of so many words, each of them `fill`, and an output of `room` bytes.
#[derive(Clone, Copy)]
pub struct Beside {
    pub words: usize,
    pub fill: u64,
    pub room: usize,
}

// The ledger is written, and what is lent beside it lasts for that call.
pub fn write(rt: &impl Print, lent: &Lent<'_>, beside: Beside) -> io::Result<()> {
    let Beside { words, fill, room } = beside;
    let mut scratch = [fill; SCRATCH];
    let mut output = [BLANK; MOST_ROOM];
    tell(
        rt,
        lent,
        &mut scratch[..words.min(SCRATCH)],
        &mut output[..room.min(MOST_ROOM)],
        fill,
    )
}
