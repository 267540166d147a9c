// What the program writes for what it reads, on slices: the smallest table, or one record that tells the refusal.
// (`as` narrows, or goes between u32, u64 and usize, where no From serves: it is proved that nothing is lost.)
#![tactic(auto)]

ghost use Rattle.std.specs.Prelude.{◌<◌, ◌≤◌, length};
ghost use Rattle.rules.specs.Numbers.{ipv4, record_bytes};
ghost use Rattle.program.specs.Promise.{Answers, Refuses};
ghost use Rattle.refusals.specs.Numbered.{number_of};

use numbers::{MOST_INPUT, RECORD, REFUSAL};
use refusals::{Refusal, Refused};

// One record tells the refusal: the place, high byte first, the number where a prefix's length stands, the mark where its action
// does, and zeros.
fn refuse(output: &mut [u8], refused: Refused) -> usize
    requires room { record_bytes ipv4 ≤ length output.old }
    requires place { refused.count < 4294967296 }
    ensures { Refuses (number_of refused.refusal) refused.count output.old output.new result }
{
    let [a, b, c, d] = (refused.count as u32).to_be_bytes();
    let number = refused.refusal.number() as u8;
    output[..RECORD].copy_from_slice(&[a, b, c, d, number, REFUSAL, 0, 0]);
    RECORD
}

// The bytes for an input, at the start of the output: so many. A table never has more bytes than its list, so an output that is as
// long as the longest input is always enough; a shorter one is left alone.
pub fn answer(input: &[u8], output: &mut [u8]) -> usize
    ensures { Answers input.now output.old output.new result }
{
    if output.len() < MOST_INPUT {
        return 0;
    }
    if input.len() > MOST_INPUT {
        return refuse(output, Refusal::LongInput.at(0));
    }
    match fresh::table(input, output) {
        Ok(count) => count * RECORD,
        Err(refused) => refuse(output, refused),
    }
}
