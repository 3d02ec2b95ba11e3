//! Tokens of what is issued.

ghost use Rattle.std.specs.Prelude.{◌≡◌, ◌+◌, ◌++◌, length};
ghost use Rattle.smallvec.specs.SmallVec.{HasRoomFor, small_vec_len};
ghost use Rattle.ws_isa.specs.Image.{tokens_to};
ghost use Rattle.df_core.specs.Rights.{tokens_of};

use smallvec::SmallVec;
use ws_isa::Dest;

/// Tokens by wave number, instruction, port and value, the first eight of which take no memory.
pub type PlainTokens = SmallVec<(u64, u32, u8, u64), 8>;

/// Puts the tokens of one word to destinations under a wave number at the end. Takes no memory.
pub fn tell(told: &mut PlainTokens, wave: u64, dests: &[Dest], word: u64)
    requires { HasRoomFor told.old (length dests.now) }
    ensures tokens { tokens_of told.new.items
        ≡ tokens_of told.old.items ++ tokens_to wave word dests.now }
    ensures count { small_vec_len told.new ≡ small_vec_len told.old + length dests.now }
    ensures room { told.new.capacity ≡ told.old.capacity }
{
    for dest in dests {
        told.push_reserved((wave, dest.instr, dest.port, word));
    }
}
