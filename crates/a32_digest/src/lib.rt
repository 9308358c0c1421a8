//! A digest of the decoder's answers, by which it is compared with another decoder over every word.
#![tactic(auto)]

ghost use Rattle.std.specs.Prelude.{◌≡◌, ℕ};
ghost use Rattle.a32_digest.specs.Numbers.{bits_of, signed_numbers, mark_number, index_numbers, mem_numbers, operand_numbers, places_numbers};
ghost use Rattle.a32_digest.specs.Numbers.{insn_numbers};
ghost use Rattle.a32_digest.specs.Numbers.{answer_numbers};
ghost use Rattle.a32_digest.specs.Digest.{mix, mixed, digest_of};

use a32::decode;
use insn::{Decoded, Insn, Mem, Operand, PLACES, Place, Reg};

/// The largest prime below 2^32: a digest and a number mix without overflow in 64 bits.
const MODULUS: u64 = 4_294_967_291;

/// The multiplier of the 32-bit FNV hash.
const MULTIPLIER: u64 = 16_777_619;

/// Folds the answers to `count` words from `first` on, all at `addr`, into `h`. The word after the last of all is 0.
pub fn digest(h: u64, first: u32, count: u32, addr: u64) -> u64
    ensures { result ≡ digest_of h first count addr }
{
    let mut s = State(h);
    for i in 0..count {
        s = s.answer(decode(first.wrapping_add(i), addr));
    }
    s.0
}

/// A digest so far. Each method mixes in the numbers of what it is given.
#[derive(Clone, Copy)]
struct State(u64);

impl State {
    fn answer(self, d: Decoded) -> State
        ensures { result ≡ record { 0 = mixed self.0 (answer_numbers d) } }
    {
        match d {
            Ok(i) => self.long(0).insn(i),
            Err(refusal) => self.number(refusal.number()),
        }
    }

    fn insn(self, i: Insn) -> State
        ensures { result ≡ record { 0 = mixed self.0 (insn_numbers i) } }
    {
        self.long(i.addr)
            .number(i.name)
            .number(i.cond.0)
            .number(i.flow.number())
            .number(i.flow.target())
            .places(i.ops)
    }

    fn places(self, ops: [Place; PLACES]) -> State
        ensures { result ≡ record { 0 = mixed self.0 (places_numbers ops) } }
    {
        let mut s = self;
        for place in ops {
            s = s.operand(place.operand);
        }
        s
    }

    fn operand(self, o: Operand) -> State
        ensures { result ≡ record { 0 = mixed self.0 (operand_numbers o) } }
    {
        match o {
            Operand::Empty => self.long(0),
            Operand::Register(r) => self.long(1).number(r.0),
            Operand::Shifted(r, kind, n) => self
                .long(2)
                .number(r.0)
                .number(kind.number())
                .number(n),
            Operand::ShiftBy(kind, r) => self.long(3).number(kind.number()).number(r.0),
            Operand::SaturateShift(kind, n) => self.long(4).number(kind.number()).number(n),
            Operand::Rotate(n) => self.long(5).number(n),
            Operand::Count(n) => self.long(6).signed(n),
            Operand::Number(n) => self.long(7).number(n),
            Operand::StatusMask(mask) => self.long(8).number(mask),
            Operand::StatusSource(status) => self.long(9).number(status.number()),
            Operand::WriteBack(r) => self.long(10).number(r.0),
            Operand::List(list) => self.long(11).number(list),
            Operand::Address(a) => self.long(12).number(a),
            Operand::Memory(m) => self.long(13).mem(m),
            Operand::Option(n) => self.long(14).number(n),
            Operand::Coprocessor(n) => self.long(15).number(n),
            Operand::CoprocessorRegister(n) => self.long(16).number(n),
        }
    }

    fn mem(self, m: Mem) -> State
        ensures { result ≡ record { 0 = mixed self.0 (mem_numbers m) } }
    {
        self.number(m.base.0)
            .index(m.index)
            .signed(m.disp)
            .number(m.mode.number())
            .number(m.size)
            .number(m.decimal)
            .number(m.minus_zero)
    }

    fn index(self, index: Option<(Reg, u8)>) -> State
        ensures { result ≡ record { 0 = mixed self.0 (index_numbers index) } }
    {
        match index {
            None => self.long(0).long(0).long(0),
            Some((r, n)) => self.long(1).number(r.0).number(n),
        }
    }

    fn signed(self, x: i64) -> State
        ensures { result ≡ record { 0 = mixed self.0 (signed_numbers x) } }
    {
        let bits = bits_of(x);
        self.long(bits >> 32).long(bits % 0x1_0000_0000)
    }

    /// One number, of the type that holds it.
    fn number<T: Into<u64>>(self, x: T) -> State
        ensures { (n : ℕ) × T.converts x n × (result ≡ record { 0 = mix self.0 n }) }
    {
        self.long(x.into())
    }

    #[tactic(auto, unfolding(crate::specs::Digest::mix))]
    fn long(self, x: u64) -> State
        ensures { result ≡ record { 0 = mix self.0 x } }
    {
        State((self.0 % MODULUS * MULTIPLIER + x % MODULUS) % MODULUS)
    }
}

/// The 64 bits of `v`, in two's complement: a negative number is not cast, but its complement is.
fn bits_of(v: i64) -> u64
    ensures { result ≡ bits_of v }
{
    if v < 0 { !(!v as u64) } else { v as u64 }
}
