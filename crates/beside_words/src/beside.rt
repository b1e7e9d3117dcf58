//! Words that stand over others, with a try's own words beside them.
ghost use Rattle.std.specs.Prelude.{◌+◌, length};
ghost use Rattle.beside_words.specs.Besides.{own_at, either, SoundBeside, KnownBeside, HadBeside, LeadsBeside};
ghost use Rattle.beside_words.specs.Loads.{LaterBeside, GaveBeside, OnceBeside};
ghost use Rattle.beside_words.specs.BesideLaws.{beside_laws};

use heap_words::Words;

/// A try's own pieces have their words from this address on.
const OWN: u32 = 4_000_000_000;

/// Any words, and from 4,000,000,000 on those of a try's own pieces, one after another.
#[derive(Drop)]
pub struct Beside<'a, W: Words> {
    pub words: &'a mut W,
    pub own: &'a [u64],
}

impl<'a, W: Words> Words for Beside<'a, W> {
    ghost addresses = { λ b. 4000000000 + length b.own.now };

    ghost sound = { λ b. SoundBeside W.addresses W.sound W.knows W.leads W.shown W.later b.words.now b.own.now };

    ghost knows = { λ b a. KnownBeside (W.knows b.words.now) b.own.now a };

    ghost had = { λ b a x. HadBeside W.had b.words.now b.own.now a x };

    ghost leads = { λ b x. LeadsBeside W.knows W.leads b.words.now b.own.now x };

    ghost own = { λ b. own_at b.own.now };

    ghost shown = { λ b. either (W.shown b.words.now) b.own.now };

    ghost later = { λ x y. LaterBeside W.later x y };

    ghost gave = { λ x y a v. GaveBeside W.later W.gave x y a v };

    ghost once = { λ x y a v. OnceBeside W.once x y a v };

    ghost laws = { beside_laws W.laws };

    fn load(&mut self, addr: u32) -> u64 {
        if addr < OWN {
            self.words.load(addr)
        } else {
            self.own[(addr - OWN) as usize]
        }
    }
}
