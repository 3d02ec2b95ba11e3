//! A table beside a plain list of the tokens that were brought to it.

ghost use Rattle.std.specs.Prelude.{◌≡◌};

use annot_check::check_image;
use asm_text::read_asm;
use df_core::{Code, Job, Token, TokenList, start};
use match_table::{Accept, AcceptFault, Fired, Operands, Table};
use std::alloc::Global;
use std::marker::Brand;
use std::test::*;
use ws_isa::Checked;
use ws_words::NoMemory;

// A loop that doubles a number in each of its waves.
pub(crate) const DOUBLES: &str =
    "wavescalar 1\nwave 1\nblock 1\npad 0 1.0\n1: advance -> 2.0 3.0 4.0\n2: nop <., 1, .>.0\n\
    3: const 0 -> 5.0\n4: const 1 -> 6.0\ngo 2\nwave 2\nblock 2\n5: advance -> 7.0 8.0\n\
    6: advance -> 9.0 9.1 10.1 10.2\n7: nop <., 1, .>.0\n8: merge -> 5.0\n9: add -> 10.0\n\
    10: phi -> 6.0\ngo 2\nend\n";

// A port of an instance: a wave, an instruction and a port.
type Place = (u64, u32, u8);

// What is said of a token: what comes of it, whether its port had one before and has one then, whether
// it would fire its instance, and how many have fired then.
type Said = (&'static str, bool, bool, bool, usize);

// An instance that has fired, and its operands.
type Instance = (u64, u32, Operands);

// How many ports an instruction of the loop has.
fn ports_of(instr: u32) -> usize {
    match instr {
        9 => 2,
        10 => 3,
        _ => 1,
    }
}

// The number that the loop has in a wave.
fn doubled(wave: u64) -> u64 {
    let times = wave.wrapping_sub(2);
    if times < 64 { 1 << times } else { 0 }
}

// The operands that an instance has in the loop.
fn operands_of(wave: u64, instr: u32) -> Operands {
    let (now, then) = (doubled(wave), doubled(wave.wrapping_add(1)));
    match instr {
        9 => Operands::Two(now, now),
        10 => Operands::Three(then, now, now),
        6 => Operands::One(then),
        _ => Operands::One(0),
    }
}

// The image of this text.
#[tactic(auto, using(crate::proofs::Feeds::few_feeds))]
pub(crate) fn image_of(alloc: Global, text: &str) -> Option<Checked> {
    let bytes = text.as_bytes();
    if bytes.len() > 100_000 {
        return None;
    }
    match read_asm(alloc, bytes) {
        Ok(image) => check_image(alloc, image).ok(),
        Err(_) => None,
    }
}

// The next of some numbers that look random.
fn next(number: u64) -> u64 {
    number
        .wrapping_mul(6364136223846793005)
        .wrapping_add(1442695040888963407)
}

// Whether this instruction is one of memory.
fn asks(instr: u32) -> bool {
    instr == 2 || instr == 7
}

// The ports of instances that have had a token, each once, and the instances that have fired.
#[derive(Drop)]
struct Plain {
    ports: Vec<Place>,
    fired: Vec<Instance>,
}

impl Plain {
    // How many ports of an instance are listed.
    fn count(&self, wave: u64, instr: u32) -> usize {
        let mut count = 0usize;
        for (listed_wave, listed_instr, _) in &self.ports {
            if *listed_wave == wave && *listed_instr == instr {
                count = count.wrapping_add(1);
            }
        }
        count
    }

    // The instances of memory that have fired.
    fn asked(&self, alloc: Global) -> Result<Vec<Instance>, NoMemory> {
        let mut asked = Vec::new(alloc);
        for instance in &self.fired {
            if asks(instance.1) {
                asked.push(*instance)?;
            }
        }
        Ok(asked)
    }

    // What the list says of a token to a port.
    fn says(&mut self, place: Place) -> Result<Said, NoMemory> {
        let (wave, instr, _) = place;
        if self.ports.contains(&place) {
            return Ok(("old", true, true, false, self.fired.len()));
        }
        self.ports.push(place)?;
        if self.count(wave, instr) != ports_of(instr) {
            return Ok(("waits", false, true, false, self.fired.len()));
        }
        self.fired.push((wave, instr, operands_of(wave, instr)))?;
        let comes = if asks(instr) { "asks" } else { "fires" };
        Ok((comes, false, true, true, self.fired.len()))
    }
}

fn place_of<J: Job>(token: &Token<J>) -> Place {
    (token.wave(), token.instr(), token.port())
}

// What comes of a token to a port, by the table's answer. The tokens that are sent stand behind others.
fn comes<J: Job>(
    answer: Result<Accept<J>, AcceptFault<J>>,
    place: Place,
    way: &mut Vec<Token<J>>,
) -> Result<&'static str, NoMemory> {
    match answer {
        Ok(Accept::Waits) => Ok("waits"),
        Ok(Accept::Fires(tokens)) => {
            take_all(tokens, way)?;
            Ok("fires")
        }
        Ok(Accept::Asks(request)) if (request.wave(), request.instr(), 0) == place => Ok("asks"),
        Err(AcceptFault::Old(token)) if place_of(&token) == place => Ok("old"),
        Err(AcceptFault::NoMemory(_)) => Err(NoMemory),
        _ => Ok("another's"),
    }
}

// What a table says of a token.
fn table_says<J: Job>(
    alloc: Global,
    code: &Code<'_, J>,
    table: &mut Table<J>,
    token: Token<J>,
    way: &mut Vec<Token<J>>,
) -> Result<Said, NoMemory> {
    let place = place_of(&token);
    let had = table.holds(place.0, place.1, place.2);
    let fires = table.would_fire(code, &token);
    let answer = table.accept(alloc, code, token);
    let comes = comes(answer, place, way)?;
    let has = table.holds(place.0, place.1, place.2);
    Ok((comes, had, has, fires, table.fired_count()))
}

// Puts all tokens of a list behind others.
pub(crate) fn take_all<J: Job>(
    tokens: TokenList<J>,
    way: &mut Vec<Token<J>>,
) -> Result<(), NoMemory> {
    let mut tokens = tokens;
    for _ in 0..tokens.len() {
        if let Some(token) = tokens.pop() {
            way.push(token)?;
        }
    }
    Ok(())
}

// Takes one of the tokens that are in flight, or one that came before, once more.
fn drawn<J: Job>(way: &mut Vec<Token<J>>, past: &[Token<J>], number: u64) -> Option<Token<J>> {
    let place = (number >> 33) as usize;
    if number >> 63 == 0 && past.len() > 0 {
        return Some(past[place % past.len()].again());
    }
    if way.len() == 0 {
        return None;
    }
    Some(way.swap_remove(place % way.len()))
}

// The instances that a table says have fired.
fn instances<J: Job>(
    alloc: Global,
    code: &Code<'_, J>,
    table: &Table<J>,
) -> Result<Vec<Instance>, NoMemory> {
    let mut instances = Vec::new(alloc);
    for place in 0..table.fired_count() {
        instances.push(instance(table.fired_at(code, place)))?;
    }
    Ok(instances)
}

// Those of memory among them.
fn asked<J: Job>(
    alloc: Global,
    code: &Code<'_, J>,
    table: &Table<J>,
) -> Result<Vec<Instance>, NoMemory> {
    let mut asked = Vec::new(alloc);
    for place in 0..table.asked_count() {
        asked.push(instance(table.asked_at(code, place)))?;
    }
    Ok(asked)
}

fn instance(fired: Fired) -> Instance {
    (fired.wave, fired.instr, fired.operands)
}

// Whether a table and a list say the same of a token.
fn is_alike<J: Job>(
    alloc: Global,
    code: &Code<'_, J>,
    table: &mut Table<J>,
    plain: &mut Plain,
    token: Token<J>,
    way: &mut Vec<Token<J>>,
) -> Result<bool, NoMemory> {
    let wanted = plain.says(place_of(&token))?;
    Ok(table_says(alloc, code, table, token, way)? == wanted)
}

// Whether they say the same of 2,000 tokens, of which every other one or so came before.
fn all_alike<J: Job>(
    alloc: Global,
    code: &Code<'_, J>,
    table: &mut Table<J>,
    plain: &mut Plain,
    way: &mut Vec<Token<J>>,
) -> Result<bool, NoMemory> {
    let mut past: Vec<Token<J>> = Vec::new(alloc);
    let mut number = 7;
    let mut alike = true;
    for _ in 0..2000 {
        number = next(number);
        if let Some(token) = drawn(way, &past, number) {
            past.push(token.again())?;
            alike &= is_alike(alloc, code, table, plain, token, way)?;
        }
    }
    Ok(alike)
}

// Whether they do so from no tokens on, and list the same instances then.
fn lists_alike<J: Job>(
    alloc: Global,
    code: &Code<'_, J>,
    way: &mut Vec<Token<J>>,
) -> Result<bool, NoMemory> {
    let mut table: Table<J> = Table::new(alloc);
    let mut plain = Plain {
        ports: Vec::new(alloc),
        fired: Vec::new(alloc),
    };
    let alike = all_alike(alloc, code, &mut table, &mut plain, way)?;
    let same = instances(alloc, code, &table)? == plain.fired
        && asked(alloc, code, &table)? == plain.asked(alloc)?;
    Ok(alike && same && plain.ports.len() > 500 && plain.fired.len() > 300)
}

// Whether a table and a list are alike in a run of an image.
fn are_alike<J: Job>(alloc: Global, image: &Checked) -> Result<bool, NoMemory>
    requires { image.now ≡ J.image }
{
    let code: Code<'_, J> = Code::of(alloc, image)?;
    let mut way: Vec<Token<J>> = Vec::new(alloc);
    take_all(start(alloc, &code)?, &mut way)?;
    lists_alike(alloc, &code, &mut way)
}

#[test]
fn a_table_is_a_plain_list(rt: HostRuntime) -> Result<(), Fail> {
    let Some(image) = image_of(rt.alloc(), DOUBLES) else {
        assert!(rt; false);
        return Ok(());
    };
    assert!(rt; are_alike::<Brand>(rt.alloc(), &image)?);
    Ok(())
}
