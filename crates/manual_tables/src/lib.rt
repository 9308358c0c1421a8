//! The tables of chapter A5 that lead to no other. A table is an array: its columns, one after another, are the place of a
//! word's entry. An entry is a letter, the table's titles in their order; a dot is UNDEFINED, and a question mark
//! UNPREDICTABLE. Each table has a function of its own, whose clause is the manual's table.
#![tactic(auto)]

pub mod columns;

ghost use Rattle.std.specs.Prelude.{◌≡◌, ◌+◌, ◌*◌, ◌<◌, false, eqb, get_or};
ghost use Rattle.word.specs.Field.{field};
ghost use Rattle.manual.specs.A5 as A5;
ghost use Rattle.manual.specs.Pattern.{like};
ghost use Rattle.manual_tables.specs.Titles.{Numbered, entry_of};

use crate::columns::{column, is, title};

/// A5.2.1, table A5-3: op 24:20, op2 6:5, and whether imm5 is 0.
const REGISTER: [u8; 256] = *b"\
    aaaaaaaaaaaaaaaabbbbbbbbbbbbbbbbccccccccccccccccdddddddddddddddd\
    eeeeeeeeeeeeeeeeffffffffffffffffgggggggggggggggghhhhhhhhhhhhhhhh\
    ........iiiiiiii........jjjjjjjj........kkkkkkkk........llllllll\
    mmmmmmmmmmmmmmmmonppqqsronppqqsrttttttttttttttttuuuuuuuuuuuuuuuu";

pub fn register(w: u32) -> u16
    ensures { Numbered (A5.data_processing_register w) result }
{
    let place = (column(w, 24, 20) * 4 + column(w, 6, 5)) * 2 + is(w, 11, 7, 0);
    title(2, REGISTER[place as usize])
}

/// A5.2.2, table A5-4: op1 24:20, op2 6:5.
const SHIFTED: [u8; 128] = *b"\
    aaaaaaaabbbbbbbbccccccccddddddddeeeeeeeeffffffffgggggggghhhhhhhh\
    ....iiii....jjjj....kkkk....llllmmmmmmmmnopqnopqrrrrrrrrssssssss";

pub fn shifted(w: u32) -> u16
    ensures { Numbered (A5.data_processing_shifted w) result }
{
    let place = column(w, 24, 20) * 4 + column(w, 6, 5);
    title(23, SHIFTED[place as usize])
}

/// A5.2.5, table A5-7: op 23:20.
const MULTIPLY: [u8; 16] = *b"\
    aabbc.d.eeffgghh";

pub fn multiply(w: u32) -> u16
    ensures { Numbered (A5.multiply w) result }
{
    let place = column(w, 23, 20);
    title(61, MULTIPLY[place as usize])
}

/// A5.2.7, table A5-9: op1 22:21, op 5.
const HALFWORD_MULTIPLY: [u8; 8] = *b"\
    aabcddee";

pub fn halfword_multiply(w: u32) -> u16
    ensures { Numbered (A5.halfword_multiply w) result }
{
    let place = column(w, 22, 21) * 2 + column(w, 5, 5);
    title(69, HALFWORD_MULTIPLY[place as usize])
}

/// A5.2.8, table A5-10: op2 6:5, op1 24:20, and whether Rn is 15.
const EXTRA: [u8; 256] = *b"\
    ................................................................\
    aabbaabbccdeccdeaabbaabbccdeccdeaabbaabbccdeccdeaabbaabbccdeccde\
    ffggffgghijkhijkffggffgghijkhijkffggffgghijkhijkffggffgghijkhijk\
    llmmllmmnnopnnopllmmllmmnnopnnopllmmllmmnnopnnopllmmllmmnnopnnop";

pub fn extra(w: u32) -> u16
    ensures { Numbered (A5.extra_load_store w) result }
{
    let place = (column(w, 6, 5) * 32 + column(w, 24, 20)) * 2 + is(w, 19, 16, 15);
    title(74, EXTRA[place as usize])
}

/// A5.2.9, table A5-11: op2 6:5, op 20, and the last bit of Rt.
const UNPRIVILEGED: [u8; 16] = *b"\
    ....aabb?.cc?.dd";

pub fn unprivileged(w: u32) -> u16
    ensures { Numbered (A5.extra_unprivileged w) result }
{
    let place = (column(w, 6, 5) * 2 + column(w, 20, 20)) * 2 + column(w, 12, 12);
    title(90, UNPRIVILEGED[place as usize])
}

/// A5.2.10, table A5-12: op 23:20.
const SYNCHRONIZATION: [u8; 16] = *b"\
    a...a...bcdefghi";

pub fn synchronization(w: u32) -> u16
    ensures { Numbered (A5.synchronization w) result }
{
    let place = column(w, 23, 20);
    title(94, SYNCHRONIZATION[place as usize])
}

/// A5.2.12 and A5.2.6, tables A5-14 and A5-8: op2 6:4, B 9, op 22:21, and the last two bits of op1.
const MISCELLANEOUS: [u8; 256] = *b"\
    ccccddddccccddddaaaabbbbaaaabbbb....eeee....ffff....eeee....ffff\
    ....gggg............gggg............hhhh............hhhh........\
    ................................mmmmnnnnooooppppmmmmnnnnoooopppp\
    ............iiii............iiii....jjjjkkkkllll....jjjjkkkkllll";

pub fn miscellaneous(w: u32) -> u16
    ensures { Numbered (A5.miscellaneous w) result }
{
    let place = ((column(w, 6, 4) * 2 + column(w, 9, 9)) * 4 + column(w, 22, 21)) * 4
        + column(w, 17, 16);
    title(111, MISCELLANEOUS[place as usize])
}

/// A5.3, table A5-15: A 25, op1 24:20, B 4, and whether Rn is 15.
const LOAD_STORE: [u8; 256] = *b"\
    eeeeghghaaaabbbbjjjjlmlmccccddddeeeeghghaaaabbbbjjjjlmlmccccdddd\
    eeeeghgheeeeghghjjjjlmlmjjjjlmlmeeeeghgheeeeghghjjjjlmlmjjjjlmlm\
    ff..ii..aa..bb..kk..nn..cc..dd..ff..ii..aa..bb..kk..nn..cc..dd..\
    ff..ii..ff..ii..kk..nn..kk..nn..ff..ii..ff..ii..kk..nn..kk..nn..";

pub fn load_store(w: u32) -> u16
    ensures { Numbered (A5.load_store w) result }
{
    let place = ((column(w, 25, 25) * 32 + column(w, 24, 20)) * 2 + column(w, 4, 4)) * 2
        + is(w, 19, 16, 15);
    title(127, LOAD_STORE[place as usize])
}

/// A5.4.1 and A5.4.2, tables A5-17 and A5-18, whose rows stand alike: op1 21:20, op2 7:5.
const PARALLEL: [u8; 32] = *b"\
    ........abcde..fghijk..lmnopq..r";

/// The row of either, by the number that its titles begin with.
fn parallel(w: u32, first: u16) -> u16
    requires { first < 271 }
    ensures { result ≡ entry_of first (get_or PARALLEL (field w 20 2 * 8 + field w 5 3) 0) }
{
    let place = column(w, 21, 20) * 8 + column(w, 7, 5);
    title(first, PARALLEL[place as usize])
}

pub fn parallel_signed(w: u32) -> u16
    ensures { Numbered (A5.parallel_signed w) result }
{
    parallel(w, 141)
}

pub fn parallel_unsigned(w: u32) -> u16
    ensures { Numbered (A5.parallel_unsigned w) result }
{
    parallel(w, 159)
}

/// A5.4.3, table A5-19: op1 22:20, op2 7:5, and whether A is 15.
const PACKING: [u8; 128] = *b"\
    aa..aadeaaffaa..................bbggbbhibb..bb..bbjjbbklbbmmbb..\
    ......no........................ccppccqrcc..cc..ccsscctuccvvcc..";

pub fn packing(w: u32) -> u16
    ensures { Numbered (A5.packing w) result }
{
    let place = (column(w, 22, 20) * 8 + column(w, 7, 5)) * 2 + is(w, 19, 16, 15);
    title(177, PACKING[place as usize])
}

/// A5.4.4, table A5-20: op1 22:20, op2 7:5, and whether A is 15.
const SIGNED_MULTIPLY: [u8; 128] = *b"\
    ababcdcd........ee..............................ff..............\
    gggghhhh........ijij........kkkk................................";

pub fn signed_multiply(w: u32) -> u16
    ensures { Numbered (A5.signed_multiply w) result }
{
    let place = (column(w, 22, 20) * 8 + column(w, 7, 5)) * 2 + is(w, 15, 12, 15);
    title(199, SIGNED_MULTIPLY[place as usize])
}

/// A5.5, table A5-21: op 25:20, R 15, and whether Rn is 13.
const BRANCH_AND_BLOCK: [u8; 256] = *b"\
    aaaabbbbaaaabbbbkkkkllmmkkkkllmmccccddddccccdedekkkkllmmkkkkllmm\
    ffffhhhhfgfghhhhkkkkllmmkkkkllmmiiiijjjjiiiijjjjkkkkllmmkkkkllmm\
    nnnnnnnnnnnnnnnnnnnnnnnnnnnnnnnnnnnnnnnnnnnnnnnnnnnnnnnnnnnnnnnn\
    oooooooooooooooooooooooooooooooooooooooooooooooooooooooooooooooo";

pub fn branch_and_block(w: u32) -> u16
    ensures { Numbered (A5.branch_and_block w) result }
{
    let place = (column(w, 25, 20) * 2 + column(w, 15, 15)) * 2 + is(w, 19, 16, 13);
    title(217, BRANCH_AND_BLOCK[place as usize])
}

/// A5.6, table A5-22: op1 25:20, op 4, whether coproc is 101x, and whether Rn is 15.
const COPROCESSOR: [u8; 512] = *b"\
    ................bbjjbbjjcdjjcdjjeejjeejjffjjffjjbbjjbbjjcdjjcdjj\
    bbjjbbjjcdjjcdjjbbjjbbjjcdjjcdjjbbjjbbjjcdjjcdjjbbjjbbjjcdjjcdjj\
    bbjjbbjjcdjjcdjjbbjjbbjjcdjjcdjjbbjjbbjjcdjjcdjjbbjjbbjjcdjjcdjj\
    bbjjbbjjcdjjcdjjbbjjbbjjcdjjcdjjbbjjbbjjcdjjcdjjbbjjbbjjcdjjcdjj\
    ggjjhhjjggjjiijjggjjhhjjggjjiijjggjjhhjjggjjiijjggjjhhjjggjjiijj\
    ggjjhhjjggjjiijjggjjhhjjggjjiijjggjjhhjjggjjiijjggjjhhjjggjjiijj\
    aaaaaaaaaaaaaaaaaaaaaaaaaaaaaaaaaaaaaaaaaaaaaaaaaaaaaaaaaaaaaaaa\
    aaaaaaaaaaaaaaaaaaaaaaaaaaaaaaaaaaaaaaaaaaaaaaaaaaaaaaaaaaaaaaaa";

pub fn coprocessor(w: u32) -> u16
    ensures { Numbered (A5.coprocessor w) result }
{
    let place = ((column(w, 25, 20) * 2 + column(w, 4, 4)) * 2 + is(w, 11, 9, 5)) * 2
        + is(w, 19, 16, 15);
    title(232, COPROCESSOR[place as usize])
}

/// A5.2.3 and A5.2, tables A5-5 and A5-2, where op is 1 and op1 is not 10x10: op1 24:20, and whether Rn is 15.
const IMMEDIATE: [u8; 64] = *b"\
    aaaabbbbcdcdeeeefdfdgggghhhhiiiirrjj..kkssll..mmnnnnooooppppqqqq";

pub fn immediate(w: u32) -> u16
    requires { (field w 25 1 ≡ 1) × (like (field w 20 5) "10x10" ≡ false) }
    ensures { Numbered (A5.data_processing w) result }
{
    let place = column(w, 24, 20) * 2 + is(w, 19, 16, 15);
    title(42, IMMEDIATE[place as usize])
}

/// A5.2.11, table A5-13, where op and op1 are 0: op2 7:0.
const HINT: [u8; 256] = *b"\
    abcdeggggggggggggggggggggggggggggggggggggggggggggggggggggggggggg\
    gggggggggggggggggggggggggggggggggggggggggggggggggggggggggggggggg\
    gggggggggggggggggggggggggggggggggggggggggggggggggggggggggggggggg\
    ggggggggggggggggggggggggggggggggggggggggggggggggffffffffffffffff";

pub fn hint(w: u32) -> u16
    requires { (field w 22 1 ≡ 0) × (field w 16 4 ≡ 0) }
    ensures { Numbered (A5.msr_and_hints w) result }
{
    let place = column(w, 7, 0);
    title(103, HINT[place as usize])
}

/// A5.4, table A5-16, where op1 is 11xxx: op1 22:20, op2 7:5, and whether Rd and Rn are 15.
const BIT_FIELDS: [u8; 256] = *b"\
    bbaa............................................................\
    ........cccc............cccc............cccc............cccc....\
    eded............eded............eded............eded............\
    ........ffff............ffff............ffff............ffffgggg";

pub fn bit_fields(w: u32) -> u16
    requires { field w 23 2 ≡ 3 }
    ensures { Numbered (A5.media w) result }
{
    let place = ((column(w, 22, 20) * 8 + column(w, 7, 5)) * 2 + is(w, 15, 12, 15)) * 2
        + is(w, 3, 0, 15);
    title(210, BIT_FIELDS[place as usize])
}

/// A5.7, table A5-23, where op1 is 1xxxxxxx: op1 26:20, op 4.
const UNCONDITIONAL_UPPER: [u8; 256] = *b"\
    ..bb..bbaa..aa....bb..bbaa..aa....bb..bbaa..aa....bb..bbaa..aa..\
    cccccccccccccccccccccccccccccccccccccccccccccccccccccccccccccccc\
    ....eeddffggeeddeeddeeddeeddeeddeeddeeddeeddeeddeeddeeddeeddeedd\
    hihjhihjhihjhihjhihjhihjhihjhihj................................";

pub fn unconditional_upper(w: u32) -> u16
    requires { field w 27 1 ≡ 1 }
    ensures { Numbered (A5.unconditional w) result }
{
    let place = column(w, 26, 20) * 2 + column(w, 4, 4);
    title(258, UNCONDITIONAL_UPPER[place as usize])
}

/// A5.7.1, table A5-24, where op1 is 0010000: op2 7:4, and the last bit of Rn.
const STATE: [u8; 32] = *b"\
    aba.....a.a.....a.a.....a.a.....";

pub fn state(w: u32) -> u16
    requires { field w 20 7 ≡ 16 }
    ensures { Numbered (A5.hints_and_simd w) result }
{
    let place = column(w, 7, 4) * 2 + column(w, 16, 16);
    title(242, STATE[place as usize])
}

/// The same where op1 is 1010111: op2 7:4.
const BARRIER: [u8; 16] = *b"\
    ?j??klm?????????";

pub fn barrier(w: u32) -> u16
    requires { field w 20 7 ≡ 87 }
    ensures { Numbered (A5.hints_and_simd w) result }
{
    let place = column(w, 7, 4);
    title(242, BARRIER[place as usize])
}

/// The same where it is neither: op1 26:20, the last bit of op2, and whether Rn is 15.
const PRELOAD: [u8; 512] = *b"\
    ................................................................\
    ................................................................\
    cccccccccccccccccccccccccccccccccccccccccccccccccccccccccccccccc\
    cccccccccccccccccccccccccccccccccccccccccccccccccccccccccccccccc\
    ddddeeeedddd????ddddffffdddd????ddddeeeedddd????ddddffffdddd????\
    ....g?g?....????....hihi............g?g?....????....hihi....????\
    ....ee......??......nn......??......ee......??......nn......??..\
    ....oo......??......pp......??......oo......??......pp......??..";

pub fn preload(w: u32) -> u16
    requires { (eqb (field w 20 7) 16 ≡ false) × (eqb (field w 20 7) 87 ≡ false) }
    ensures { Numbered (A5.hints_and_simd w) result }
{
    let place = (column(w, 26, 20) * 2 + column(w, 4, 4)) * 2 + is(w, 19, 16, 15);
    title(242, PRELOAD[place as usize])
}
