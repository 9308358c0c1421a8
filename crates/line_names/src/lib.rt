//! The tables of names, and their writers. An entry takes as many bytes as its table's are wide, with spaces after its text. All writers write by
//! `put_entry`; each table has one of its own, whose argument's type says what the table goes by.
#![tactic(auto)]

ghost use Rattle.std.specs.Prelude.{◌≡◌};
ghost use Rattle.insn.specs.Numbers.{status_number};
ghost use Rattle.text.specs.Put.{Room, Put};
ghost use Rattle.insn.specs.Roots.{roots};
ghost use Rattle.line_spelling.specs.Names.{suffixes, masks, sources, barriers, coprocessors, co_registers, entry};
ghost use Rattle.line_spelling.specs.Line.{stem_of, register_text, shift_text, flow_text};

use insn::{Cond, Flow, Reg, Shift, Status, name};
use text::put_entry;

/// The roots, by name number.
const ROOTS: [u8; 1264] = *b"\
    and     eor     sub     rsb     add     adc     sbc     rsc     \
    tst     teq     cmp     cmn     orr     mov     bic     mvn     \
    ands    eors    subs    rsbs    adds    adcs    sbcs    rscs    \
    orrs    movs    bics    mvns    lsl     lsr     asr     ror     \
    lsls    lsrs    asrs    rors    rrxs    rrx     mrs     msr     \
    bx      clz     bxj     blx     qadd    qsub    qdadd   qdsub   \
    bkpt    muls    mul     mlas    mla     umaal   mls     umull   \
    umulls  umlal   umlals  smull   smulls  smlal   smlals  strex   \
    ldrex   strexb  ldrexb  strexh  ldrexh  strh    ldrh    ldrd    \
    ldrsb   strd    ldrsh   movt    movw    nop     yield   wfe     \
    wfi     sev     ldr     ldrb    str     strb    ldrt    ldrbt   \
    strt    strbt   udf     sbfx    ubfx    bfc     bfi     sdiv    \
    udiv    ssat    usat    rev     rev16   rbit    revsh   sxtb16  \
    sxtab16 sxtb    sxtab   sxth    sxtah   uxtb16  uxtab16 uxtb    \
    uxtab   uxth    uxtah   ldmda   ldm     ldmdb   ldmib   stmda   \
    stm     stmdb   stmib   pop     push    bl      b       pld     \
    pldw    clrex   dsb     dmb     isb     smlabb  smlabt  smlatb  \
    smlatt  smlawb  smlawt  smulwb  smulwt  smlalbb smlalbt smlaltb \
    smlaltt smulbb  smulbt  smultb  smultt  mrc     mcr     cdp     \
    mrrc    mcrr    ldc     ldcl    stc     stcl    ";

/// By condition.
const SUFFIXES: [u8; 32] = *b"\
    eqnehslomiplvsvc\
    hilsgeltgtle    ";

/// The status masks, by bit 22, then 19:16.
const MASKS: [u8; 384] = *b"\
    CPSR        CPSR_c      CPSR_x      CPSR_xc     \
    APSR_g      CPSR_sc     CPSR_sx     CPSR_sxc    \
    APSR_nzcvq  CPSR_fc     CPSR_fx     CPSR_fxc    \
    APSR_nzcvqg CPSR_fsc    CPSR_fsx    CPSR_fsxc   \
    SPSR        SPSR_c      SPSR_x      SPSR_xc     \
    SPSR_s      SPSR_sc     SPSR_sx     SPSR_sxc    \
    SPSR_f      SPSR_fc     SPSR_fx     SPSR_fxc    \
    SPSR_fs     SPSR_fsc    SPSR_fsx    SPSR_fsxc   ";

/// The options of a barrier, by 3:0.
const BARRIERS: [u8; 96] = *b"\
    #0x0  oshld oshst osh   #0x4  nshld nshst nsh   \
    #0x8  ishld ishst ish   #0xc  ld    st    sy    ";

/// By the number of a shift's kind.
const SHIFTS: [u8; 16] = *b"\
    lsl lsr asr ror ";

/// By the number of a status register.
const SOURCES: [u8; 8] = *b"\
    apsrspsr";

/// The registers, by number.
const REGISTERS: [u8; 64] = *b"\
    r0  r1  r2  r3  r4  r5  r6  r7  \
    r8  r9  r10 r11 r12 sp  lr  pc  ";

/// The coprocessors, by number.
const COPROCESSORS: [u8; 64] = *b"\
    p0  p1  p2  p3  p4  p5  p6  p7  \
    p8  p9  p10 p11 p12 p13 p14 p15 ";

/// The registers of a coprocessor, by number.
const CO_REGISTERS: [u8; 64] = *b"\
    c0  c1  c2  c3  c4  c5  c6  c7  \
    c8  c9  c10 c11 c12 c13 c14 c15 ";

/// By the number of a flow.
const FLOWS: [u8; 64] = *b"\
    next    jump    jump?   ijump   call    icall   ret     trap    ";

/// The root that stands before the condition: in the `l` names the condition stands before the `l`.
pub fn stem(root: u16) -> u16
    ensures { result ≡ stem_of root }
{
    match root {
        name::LDCL => name::LDC,
        name::STCL => name::STC,
        _ => root,
    }
}

/// Tables of padded entries, here and below, and no arrays of `&str`: the definition `entry` is of one text in entries of one width.
pub fn put_root(out: &mut [u8], at: usize, name: u16) -> usize
    requires { Room out.old at (entry roots name) }
    ensures { Put out.old at (entry roots name) result out.new }
{
    put_entry(out, at, &ROOTS, 8, name as usize)
}

pub fn put_suffix(out: &mut [u8], at: usize, cond: Cond) -> usize
    requires { Room out.old at (entry suffixes cond.0) }
    ensures { Put out.old at (entry suffixes cond.0) result out.new }
{
    put_entry(out, at, &SUFFIXES, 2, cond.0 as usize)
}

pub fn put_mask(out: &mut [u8], at: usize, mask: u8) -> usize
    requires { Room out.old at (entry masks mask) }
    ensures { Put out.old at (entry masks mask) result out.new }
{
    put_entry(out, at, &MASKS, 12, mask as usize)
}

pub fn put_shift(out: &mut [u8], at: usize, kind: Shift) -> usize
    requires { Room out.old at (shift_text kind) }
    ensures { Put out.old at (shift_text kind) result out.new }
{
    put_entry(out, at, &SHIFTS, 4, kind.number() as usize)
}

pub fn put_barrier(out: &mut [u8], at: usize, option: u8) -> usize
    requires { Room out.old at (entry barriers option) }
    ensures { Put out.old at (entry barriers option) result out.new }
{
    put_entry(out, at, &BARRIERS, 6, option as usize)
}

pub fn put_source(out: &mut [u8], at: usize, status: Status) -> usize
    requires { Room out.old at (entry sources (status_number status)) }
    ensures { Put out.old at (entry sources (status_number status)) result out.new }
{
    put_entry(out, at, &SOURCES, 4, status.number() as usize)
}

pub fn put_register(out: &mut [u8], at: usize, reg: Reg) -> usize
    requires { Room out.old at (register_text reg) }
    ensures { Put out.old at (register_text reg) result out.new }
{
    put_entry(out, at, &REGISTERS, 4, reg.0 as usize)
}

pub fn put_coprocessor(out: &mut [u8], at: usize, n: u8) -> usize
    requires { Room out.old at (entry coprocessors n) }
    ensures { Put out.old at (entry coprocessors n) result out.new }
{
    put_entry(out, at, &COPROCESSORS, 4, n as usize)
}

pub fn put_co_register(out: &mut [u8], at: usize, n: u8) -> usize
    requires { Room out.old at (entry co_registers n) }
    ensures { Put out.old at (entry co_registers n) result out.new }
{
    put_entry(out, at, &CO_REGISTERS, 4, n as usize)
}

pub fn put_flow(out: &mut [u8], at: usize, flow: Flow) -> usize
    requires { Room out.old at (flow_text flow) }
    ensures { Put out.old at (flow_text flow) result out.new }
{
    put_entry(out, at, &FLOWS, 8, flow.number() as usize)
}
