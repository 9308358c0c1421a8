//! The names by number: the 129 roots that a32.rs answers, in the order in which it first spells them, then the barriers, then the halfword
//! multiplies. A name is a number and no enum: rows, listings and what another language calls hold the number.

// DP and DP_S: the data processing names, plain and setting the flags.
pub const AND: u16 = 0;

pub const EOR: u16 = 1;

pub const SUB: u16 = 2;

pub const RSB: u16 = 3;

pub const ADD: u16 = 4;

pub const ADC: u16 = 5;

pub const SBC: u16 = 6;

pub const RSC: u16 = 7;

pub const TST: u16 = 8;

pub const TEQ: u16 = 9;

pub const CMP: u16 = 10;

pub const CMN: u16 = 11;

pub const ORR: u16 = 12;

pub const MOV: u16 = 13;

pub const BIC: u16 = 14;

pub const MVN: u16 = 15;

pub const ANDS: u16 = 16;

pub const EORS: u16 = 17;

pub const SUBS: u16 = 18;

pub const RSBS: u16 = 19;

pub const ADDS: u16 = 20;

pub const ADCS: u16 = 21;

pub const SBCS: u16 = 22;

pub const RSCS: u16 = 23;

pub const ORRS: u16 = 24;

pub const MOVS: u16 = 25;

pub const BICS: u16 = 26;

pub const MVNS: u16 = 27;

// SHIFTS and SHIFTS_S, and the rotate through carry.
pub const LSL: u16 = 28;

pub const LSR: u16 = 29;

pub const ASR: u16 = 30;

pub const ROR: u16 = 31;

pub const LSLS: u16 = 32;

pub const LSRS: u16 = 33;

pub const ASRS: u16 = 34;

pub const RORS: u16 = 35;

pub const RRXS: u16 = 36;

pub const RRX: u16 = 37;

// misc.
pub const MRS: u16 = 38;

pub const MSR: u16 = 39;

pub const BX: u16 = 40;

pub const CLZ: u16 = 41;

pub const BXJ: u16 = 42;

pub const BLX: u16 = 43;

pub const QADD: u16 = 44;

pub const QSUB: u16 = 45;

pub const QDADD: u16 = 46;

pub const QDSUB: u16 = 47;

pub const BKPT: u16 = 48;

// multiply.
pub const MULS: u16 = 49;

pub const MUL: u16 = 50;

pub const MLAS: u16 = 51;

pub const MLA: u16 = 52;

pub const UMAAL: u16 = 53;

pub const MLS: u16 = 54;

pub const UMULL: u16 = 55;

pub const UMULLS: u16 = 56;

pub const UMLAL: u16 = 57;

pub const UMLALS: u16 = 58;

pub const SMULL: u16 = 59;

pub const SMULLS: u16 = 60;

pub const SMLAL: u16 = 61;

pub const SMLALS: u16 = 62;

// sync.
pub const STREX: u16 = 63;

pub const LDREX: u16 = 64;

pub const STREXB: u16 = 65;

pub const LDREXB: u16 = 66;

pub const STREXH: u16 = 67;

pub const LDREXH: u16 = 68;

// extra_ldst.
pub const STRH: u16 = 69;

pub const LDRH: u16 = 70;

pub const LDRD: u16 = 71;

pub const LDRSB: u16 = 72;

pub const STRD: u16 = 73;

pub const LDRSH: u16 = 74;

// dp_imm.
pub const MOVT: u16 = 75;

pub const MOVW: u16 = 76;

pub const NOP: u16 = 77;

pub const YIELD: u16 = 78;

pub const WFE: u16 = 79;

pub const WFI: u16 = 80;

pub const SEV: u16 = 81;

// ldst.
pub const LDR: u16 = 82;

pub const LDRB: u16 = 83;

pub const STR: u16 = 84;

pub const STRB: u16 = 85;

pub const LDRT: u16 = 86;

pub const LDRBT: u16 = 87;

pub const STRT: u16 = 88;

pub const STRBT: u16 = 89;

// media.
pub const UDF: u16 = 90;

pub const SBFX: u16 = 91;

pub const UBFX: u16 = 92;

pub const BFC: u16 = 93;

pub const BFI: u16 = 94;

pub const SDIV: u16 = 95;

pub const UDIV: u16 = 96;

pub const SSAT: u16 = 97;

pub const USAT: u16 = 98;

pub const REV: u16 = 99;

pub const REV16: u16 = 100;

pub const RBIT: u16 = 101;

pub const REVSH: u16 = 102;

pub const SXTB16: u16 = 103;

pub const SXTAB16: u16 = 104;

pub const SXTB: u16 = 105;

pub const SXTAB: u16 = 106;

pub const SXTH: u16 = 107;

pub const SXTAH: u16 = 108;

pub const UXTB16: u16 = 109;

pub const UXTAB16: u16 = 110;

pub const UXTB: u16 = 111;

pub const UXTAB: u16 = 112;

pub const UXTH: u16 = 113;

pub const UXTAH: u16 = 114;

// block.
pub const LDMDA: u16 = 115;

pub const LDM: u16 = 116;

pub const LDMDB: u16 = 117;

pub const LDMIB: u16 = 118;

pub const STMDA: u16 = 119;

pub const STM: u16 = 120;

pub const STMDB: u16 = 121;

pub const STMIB: u16 = 122;

pub const POP: u16 = 123;

pub const PUSH: u16 = 124;

// branch.
pub const BL: u16 = 125;

pub const B: u16 = 126;

// unconditional.
pub const PLD: u16 = 127;

pub const PLDW: u16 = 128;

// unconditional: the barriers.
pub const CLREX: u16 = 129;

pub const DSB: u16 = 130;

pub const DMB: u16 = 131;

pub const ISB: u16 = 132;

// halfword multiplies: by 22:21, then bit 5, then bit 6. Each is the first of its halves, and the others have the numbers after it.
pub const SMLABB: u16 = 133;

pub const SMLAWB: u16 = 137;

pub const SMULWB: u16 = 139;

pub const SMLALBB: u16 = 141;

pub const SMULBB: u16 = 145;

// coproc. In `ldcl` and `stcl` the condition stands before the `l`.
pub const MRC: u16 = 149;

pub const MCR: u16 = 150;

pub const CDP: u16 = 151;

pub const MRRC: u16 = 152;

pub const MCRR: u16 = 153;

pub const LDC: u16 = 154;

pub const LDCL: u16 = 155;

pub const STC: u16 = 156;

pub const STCL: u16 = 157;
