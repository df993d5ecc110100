//! The text of i386.sled.

/// The bytes of i386.sled, as the file of that name has them.
pub const I386_SLED: &[u8] =
    br#"# The 80386 in 32-bit mode, user level, integers: how its instructions lie in bytes.
#
# The groups stand in the order of the opcode map, the two-byte opcodes and the prefixed ones behind the rest.
# A constructor has the manual's name of the instruction and of the form of its operands: r8, r16, r32 a register
# that ModRM or the opcode names, rm8, rm16, rm32 a register or memory, ib, iw, id an immediate, rel8 and rel32 a
# distance. The first constructor that matches counts; where that decides between two, a comment says so.
order little

# Opcodes: an opcode `+ r` has its upper five bits in major and the register in plus; one `+ cc` has its upper four in
# page and the condition in cc. ModRM and SIB as the manual draws them: `/digit` is a test of reg.
fields of opcode (8) op 0:7 page 4:7 cc 0:3 major 3:7 plus 0:2
fields of modrm (8) mod 6:7 reg 3:5 rm 0:2
fields of sib (8) scale 6:7 index 3:5 base 0:2
fields of byte (8) ib 0:7 rel8 0:7 disp8 0:7
fields of word (16) iw 0:15
fields of dword (32) id 0:31 rel32 0:31 disp32 0:31

pattern TWO_BYTE is op = 0x0F
pattern OPERAND_SIZE is op = 0x66
pattern REPEAT is op = 0xF3

# Operands in memory: ModRM, and SIB behind it where rm is 4. The order matters: mod 0 with rm 5, and base 5 with mod 0,
# are no register but a 32-bit displacement; index 4 is no index; rm 4 is no register. Each stands before the general form.
constructor MEM_disp32 disp32 : mem is mod = 0 & rm = 5; disp32
  | mod = 0 & rm = 4; index = 4 & base = 5; disp32
constructor MEM_index_disp32 scale, index, disp32 : mem is mod = 0 & rm = 4; scale & index & base = 5; disp32
constructor MEM_base base : mem is mod = 0 & rm = 4; index = 4 & base
constructor MEM_base_index scale, index, base : mem is mod = 0 & rm = 4; scale & index & base
constructor MEM_reg rm : mem is mod = 0 & rm
constructor MEM_base_disp8 base, disp8 : mem is mod = 1 & rm = 4; index = 4 & base; disp8
constructor MEM_base_index_disp8 scale, index, base, disp8 : mem is mod = 1 & rm = 4; scale & index & base; disp8
constructor MEM_reg_disp8 rm, disp8 : mem is mod = 1 & rm; disp8
constructor MEM_base_disp32 base, disp32 : mem is mod = 2 & rm = 4; index = 4 & base; disp32
constructor MEM_base_index_disp32 scale, index, base, disp32 : mem is mod = 2 & rm = 4; scale & index & base; disp32
constructor MEM_reg_disp32 rm, disp32 : mem is mod = 2 & rm; disp32

# Operands in a register or in memory.
constructor RM8_reg rm : rm8 is mod = 3 & rm
constructor RM8_mem mem : rm8 is mem
constructor RM16_reg rm : rm16 is mod = 3 & rm
constructor RM16_mem mem : rm16 is mem
constructor RM32_reg rm : rm32 is mod = 3 & rm
constructor RM32_mem mem : rm32 is mem

# Conditions.
constructor cc_O : cond is cc = 0x0
constructor cc_NO : cond is cc = 0x1
constructor cc_B : cond is cc = 0x2
constructor cc_AE : cond is cc = 0x3
constructor cc_E : cond is cc = 0x4
constructor cc_NE : cond is cc = 0x5
constructor cc_BE : cond is cc = 0x6
constructor cc_A : cond is cc = 0x7
constructor cc_S : cond is cc = 0x8
constructor cc_NS : cond is cc = 0x9
constructor cc_P : cond is cc = 0xA
constructor cc_NP : cond is cc = 0xB
constructor cc_L : cond is cc = 0xC
constructor cc_GE : cond is cc = 0xD
constructor cc_LE : cond is cc = 0xE
constructor cc_G : cond is cc = 0xF

# 00 to 3D: arithmetic and logic of two operands. CMP is SUB, and TEST (below) AND, without the result.
constructor ADD_rm8_r8 rm8, reg is op = 0x00; reg ... & rm8
constructor ADD_rm32_r32 rm32, reg is op = 0x01; reg ... & rm32
constructor ADD_r8_rm8 reg, rm8 is op = 0x02; reg ... & rm8
constructor ADD_r32_rm32 reg, rm32 is op = 0x03; reg ... & rm32
constructor ADD_AL_ib ib is op = 0x04; ib
constructor ADD_EAX_id id is op = 0x05; id
constructor OR_rm8_r8 rm8, reg is op = 0x08; reg ... & rm8
constructor OR_rm32_r32 rm32, reg is op = 0x09; reg ... & rm32
constructor OR_r8_rm8 reg, rm8 is op = 0x0A; reg ... & rm8
constructor OR_r32_rm32 reg, rm32 is op = 0x0B; reg ... & rm32
constructor OR_AL_ib ib is op = 0x0C; ib
constructor OR_EAX_id id is op = 0x0D; id
constructor ADC_rm8_r8 rm8, reg is op = 0x10; reg ... & rm8
constructor ADC_rm32_r32 rm32, reg is op = 0x11; reg ... & rm32
constructor ADC_r8_rm8 reg, rm8 is op = 0x12; reg ... & rm8
constructor ADC_r32_rm32 reg, rm32 is op = 0x13; reg ... & rm32
constructor ADC_AL_ib ib is op = 0x14; ib
constructor ADC_EAX_id id is op = 0x15; id
constructor SBB_rm8_r8 rm8, reg is op = 0x18; reg ... & rm8
constructor SBB_rm32_r32 rm32, reg is op = 0x19; reg ... & rm32
constructor SBB_r8_rm8 reg, rm8 is op = 0x1A; reg ... & rm8
constructor SBB_r32_rm32 reg, rm32 is op = 0x1B; reg ... & rm32
constructor SBB_AL_ib ib is op = 0x1C; ib
constructor SBB_EAX_id id is op = 0x1D; id
constructor AND_rm8_r8 rm8, reg is op = 0x20; reg ... & rm8
constructor AND_rm32_r32 rm32, reg is op = 0x21; reg ... & rm32
constructor AND_r8_rm8 reg, rm8 is op = 0x22; reg ... & rm8
constructor AND_r32_rm32 reg, rm32 is op = 0x23; reg ... & rm32
constructor AND_AL_ib ib is op = 0x24; ib
constructor AND_EAX_id id is op = 0x25; id
constructor SUB_rm8_r8 rm8, reg is op = 0x28; reg ... & rm8
constructor SUB_rm32_r32 rm32, reg is op = 0x29; reg ... & rm32
constructor SUB_r8_rm8 reg, rm8 is op = 0x2A; reg ... & rm8
constructor SUB_r32_rm32 reg, rm32 is op = 0x2B; reg ... & rm32
constructor SUB_AL_ib ib is op = 0x2C; ib
constructor SUB_EAX_id id is op = 0x2D; id
constructor XOR_rm8_r8 rm8, reg is op = 0x30; reg ... & rm8
constructor XOR_rm32_r32 rm32, reg is op = 0x31; reg ... & rm32
constructor XOR_r8_rm8 reg, rm8 is op = 0x32; reg ... & rm8
constructor XOR_r32_rm32 reg, rm32 is op = 0x33; reg ... & rm32
constructor XOR_AL_ib ib is op = 0x34; ib
constructor XOR_EAX_id id is op = 0x35; id
constructor CMP_rm8_r8 rm8, reg is op = 0x38; reg ... & rm8
constructor CMP_rm32_r32 rm32, reg is op = 0x39; reg ... & rm32
constructor CMP_r8_rm8 reg, rm8 is op = 0x3A; reg ... & rm8
constructor CMP_r32_rm32 reg, rm32 is op = 0x3B; reg ... & rm32
constructor CMP_AL_ib ib is op = 0x3C; ib
constructor CMP_EAX_id id is op = 0x3D; id

# 40 to 5F: INC and DEC, which leave the carry as it was, PUSH and POP.
constructor INC_r32 plus is major = 0x08 & plus
constructor DEC_r32 plus is major = 0x09 & plus
constructor PUSH_r32 plus is major = 0x0A & plus
constructor POP_r32 plus is major = 0x0B & plus

# 68 to 6B: PUSH of an immediate, IMUL of three operands.
constructor PUSH_id id is op = 0x68; id
constructor IMUL_r32_rm32_id reg, rm32, id is op = 0x69; reg ... & rm32; id
constructor PUSH_ib ib is op = 0x6A; ib
constructor IMUL_r32_rm32_ib reg, rm32, ib is op = 0x6B; reg ... & rm32; ib

# 70 to 7F: conditional jumps.
constructor Jcc_rel8 cond, rel8 is page = 7 ... & cond; rel8

# 80, 81, 83: arithmetic and logic with an immediate; the byte of 83 is sign-extended.
constructor ADD_rm8_ib rm8, ib is op = 0x80; reg = 0 ... & rm8; ib
constructor OR_rm8_ib rm8, ib is op = 0x80; reg = 1 ... & rm8; ib
constructor ADC_rm8_ib rm8, ib is op = 0x80; reg = 2 ... & rm8; ib
constructor SBB_rm8_ib rm8, ib is op = 0x80; reg = 3 ... & rm8; ib
constructor AND_rm8_ib rm8, ib is op = 0x80; reg = 4 ... & rm8; ib
constructor SUB_rm8_ib rm8, ib is op = 0x80; reg = 5 ... & rm8; ib
constructor XOR_rm8_ib rm8, ib is op = 0x80; reg = 6 ... & rm8; ib
constructor CMP_rm8_ib rm8, ib is op = 0x80; reg = 7 ... & rm8; ib
constructor ADD_rm32_id rm32, id is op = 0x81; reg = 0 ... & rm32; id
constructor OR_rm32_id rm32, id is op = 0x81; reg = 1 ... & rm32; id
constructor ADC_rm32_id rm32, id is op = 0x81; reg = 2 ... & rm32; id
constructor SBB_rm32_id rm32, id is op = 0x81; reg = 3 ... & rm32; id
constructor AND_rm32_id rm32, id is op = 0x81; reg = 4 ... & rm32; id
constructor SUB_rm32_id rm32, id is op = 0x81; reg = 5 ... & rm32; id
constructor XOR_rm32_id rm32, id is op = 0x81; reg = 6 ... & rm32; id
constructor CMP_rm32_id rm32, id is op = 0x81; reg = 7 ... & rm32; id
constructor ADD_rm32_ib rm32, ib is op = 0x83; reg = 0 ... & rm32; ib
constructor OR_rm32_ib rm32, ib is op = 0x83; reg = 1 ... & rm32; ib
constructor ADC_rm32_ib rm32, ib is op = 0x83; reg = 2 ... & rm32; ib
constructor SBB_rm32_ib rm32, ib is op = 0x83; reg = 3 ... & rm32; ib
constructor AND_rm32_ib rm32, ib is op = 0x83; reg = 4 ... & rm32; ib
constructor SUB_rm32_ib rm32, ib is op = 0x83; reg = 5 ... & rm32; ib
constructor XOR_rm32_ib rm32, ib is op = 0x83; reg = 6 ... & rm32; ib
constructor CMP_rm32_ib rm32, ib is op = 0x83; reg = 7 ... & rm32; ib

# 84 to 8D: TEST, XCHG, MOV, LEA.
constructor TEST_rm8_r8 rm8, reg is op = 0x84; reg ... & rm8
constructor TEST_rm32_r32 rm32, reg is op = 0x85; reg ... & rm32
constructor XCHG_rm8_r8 rm8, reg is op = 0x86; reg ... & rm8
constructor XCHG_rm32_r32 rm32, reg is op = 0x87; reg ... & rm32
constructor MOV_rm8_r8 rm8, reg is op = 0x88; reg ... & rm8
constructor MOV_rm32_r32 rm32, reg is op = 0x89; reg ... & rm32
constructor MOV_r8_rm8 reg, rm8 is op = 0x8A; reg ... & rm8
constructor MOV_r32_rm32 reg, rm32 is op = 0x8B; reg ... & rm32
constructor LEA_r32_m reg, mem is op = 0x8D; reg ... & mem

# 90 to 99: NOP, CWDE, CDQ.
constructor NOP is op = 0x90
constructor CWDE is op = 0x98
constructor CDQ is op = 0x99

# A4 to AB: MOVS, TEST of AL and EAX, STOS. Those behind a prefix stand at the end.
constructor MOVSB is op = 0xA4
constructor MOVSD is op = 0xA5
constructor TEST_AL_ib ib is op = 0xA8; ib
constructor TEST_EAX_id id is op = 0xA9; id
constructor STOSB is op = 0xAA
constructor STOSD is op = 0xAB

# B0 to BF: MOV of an immediate to a register.
constructor MOV_r8_ib plus, ib is major = 0x16 & plus; ib
constructor MOV_r32_id plus, id is major = 0x17 & plus; id

# C0, C1: shifts by an immediate.
constructor SHL_rm8_ib rm8, ib is op = 0xC0; reg = 4 ... & rm8; ib
constructor SHR_rm8_ib rm8, ib is op = 0xC0; reg = 5 ... & rm8; ib
constructor SAR_rm8_ib rm8, ib is op = 0xC0; reg = 7 ... & rm8; ib
constructor SHL_rm32_ib rm32, ib is op = 0xC1; reg = 4 ... & rm32; ib
constructor SHR_rm32_ib rm32, ib is op = 0xC1; reg = 5 ... & rm32; ib
constructor SAR_rm32_ib rm32, ib is op = 0xC1; reg = 7 ... & rm32; ib

# C3 to CD: RET, MOV of an immediate, LEAVE, INT.
constructor RET is op = 0xC3
constructor MOV_rm8_ib rm8, ib is op = 0xC6; reg = 0 ... & rm8; ib
constructor MOV_rm32_id rm32, id is op = 0xC7; reg = 0 ... & rm32; id
constructor LEAVE is op = 0xC9
# The order matters: interrupt 0x80 calls a service, any other is a trap.
constructor INT_80 is op = 0xCD; ib = 0x80
constructor INT_ib ib is op = 0xCD; ib

# D0 to D3: shifts by 1 and by CL.
constructor SHL_rm8_1 rm8 is op = 0xD0; reg = 4 ... & rm8
constructor SHR_rm8_1 rm8 is op = 0xD0; reg = 5 ... & rm8
constructor SAR_rm8_1 rm8 is op = 0xD0; reg = 7 ... & rm8
constructor SHL_rm32_1 rm32 is op = 0xD1; reg = 4 ... & rm32
constructor SHR_rm32_1 rm32 is op = 0xD1; reg = 5 ... & rm32
constructor SAR_rm32_1 rm32 is op = 0xD1; reg = 7 ... & rm32
constructor SHL_rm8_CL rm8 is op = 0xD2; reg = 4 ... & rm8
constructor SHR_rm8_CL rm8 is op = 0xD2; reg = 5 ... & rm8
constructor SAR_rm8_CL rm8 is op = 0xD2; reg = 7 ... & rm8
constructor SHL_rm32_CL rm32 is op = 0xD3; reg = 4 ... & rm32
constructor SHR_rm32_CL rm32 is op = 0xD3; reg = 5 ... & rm32
constructor SAR_rm32_CL rm32 is op = 0xD3; reg = 7 ... & rm32

# E8, E9, EB: CALL, JMP.
constructor CALL_rel32 rel32 is op = 0xE8; rel32
constructor JMP_rel32 rel32 is op = 0xE9; rel32
constructor JMP_rel8 rel8 is op = 0xEB; rel8

# F6, F7: TEST, NOT, NEG, MUL, IMUL, DIV, IDIV.
constructor TEST_rm8_ib rm8, ib is op = 0xF6; reg = 0 ... & rm8; ib
constructor NOT_rm8 rm8 is op = 0xF6; reg = 2 ... & rm8
constructor NEG_rm8 rm8 is op = 0xF6; reg = 3 ... & rm8
constructor MUL_rm8 rm8 is op = 0xF6; reg = 4 ... & rm8
constructor IMUL_rm8 rm8 is op = 0xF6; reg = 5 ... & rm8
constructor DIV_rm8 rm8 is op = 0xF6; reg = 6 ... & rm8
constructor IDIV_rm8 rm8 is op = 0xF6; reg = 7 ... & rm8
constructor TEST_rm32_id rm32, id is op = 0xF7; reg = 0 ... & rm32; id
constructor NOT_rm32 rm32 is op = 0xF7; reg = 2 ... & rm32
constructor NEG_rm32 rm32 is op = 0xF7; reg = 3 ... & rm32
constructor MUL_rm32 rm32 is op = 0xF7; reg = 4 ... & rm32
constructor IMUL_rm32 rm32 is op = 0xF7; reg = 5 ... & rm32
constructor DIV_rm32 rm32 is op = 0xF7; reg = 6 ... & rm32
constructor IDIV_rm32 rm32 is op = 0xF7; reg = 7 ... & rm32

# FE, FF: INC, DEC, CALL, JMP, PUSH.
constructor INC_rm8 rm8 is op = 0xFE; reg = 0 ... & rm8
constructor DEC_rm8 rm8 is op = 0xFE; reg = 1 ... & rm8
constructor INC_rm32 rm32 is op = 0xFF; reg = 0 ... & rm32
constructor DEC_rm32 rm32 is op = 0xFF; reg = 1 ... & rm32
constructor CALL_rm32 rm32 is op = 0xFF; reg = 2 ... & rm32
constructor JMP_rm32 rm32 is op = 0xFF; reg = 4 ... & rm32
constructor PUSH_rm32 rm32 is op = 0xFF; reg = 6 ... & rm32

# 0F: Jcc, SETcc, IMUL, MOVZX, MOVSX.
constructor Jcc_rel32 cond, rel32 is TWO_BYTE; page = 8 ... & cond; rel32
constructor SETcc_rm8 cond, rm8 is TWO_BYTE; page = 9 ... & cond; rm8
constructor IMUL_r32_rm32 reg, rm32 is TWO_BYTE; op = 0xAF; reg ... & rm32
constructor MOVZX_r32_rm8 reg, rm8 is TWO_BYTE; op = 0xB6; reg ... & rm8
constructor MOVZX_r32_rm16 reg, rm16 is TWO_BYTE; op = 0xB7; reg ... & rm16
constructor MOVSX_r32_rm8 reg, rm8 is TWO_BYTE; op = 0xBE; reg ... & rm8
constructor MOVSX_r32_rm16 reg, rm16 is TWO_BYTE; op = 0xBF; reg ... & rm16

# 66: operands of 16 bits.
constructor ADD_rm16_r16 rm16, reg is OPERAND_SIZE; op = 0x01; reg ... & rm16
constructor ADD_r16_rm16 reg, rm16 is OPERAND_SIZE; op = 0x03; reg ... & rm16
constructor OR_rm16_r16 rm16, reg is OPERAND_SIZE; op = 0x09; reg ... & rm16
constructor OR_r16_rm16 reg, rm16 is OPERAND_SIZE; op = 0x0B; reg ... & rm16
constructor ADC_rm16_r16 rm16, reg is OPERAND_SIZE; op = 0x11; reg ... & rm16
constructor ADC_r16_rm16 reg, rm16 is OPERAND_SIZE; op = 0x13; reg ... & rm16
constructor SBB_rm16_r16 rm16, reg is OPERAND_SIZE; op = 0x19; reg ... & rm16
constructor SBB_r16_rm16 reg, rm16 is OPERAND_SIZE; op = 0x1B; reg ... & rm16
constructor AND_rm16_r16 rm16, reg is OPERAND_SIZE; op = 0x21; reg ... & rm16
constructor AND_r16_rm16 reg, rm16 is OPERAND_SIZE; op = 0x23; reg ... & rm16
constructor SUB_rm16_r16 rm16, reg is OPERAND_SIZE; op = 0x29; reg ... & rm16
constructor SUB_r16_rm16 reg, rm16 is OPERAND_SIZE; op = 0x2B; reg ... & rm16
constructor XOR_rm16_r16 rm16, reg is OPERAND_SIZE; op = 0x31; reg ... & rm16
constructor XOR_r16_rm16 reg, rm16 is OPERAND_SIZE; op = 0x33; reg ... & rm16
constructor CMP_rm16_r16 rm16, reg is OPERAND_SIZE; op = 0x39; reg ... & rm16
constructor CMP_r16_rm16 reg, rm16 is OPERAND_SIZE; op = 0x3B; reg ... & rm16
constructor ADD_rm16_iw rm16, iw is OPERAND_SIZE; op = 0x81; reg = 0 ... & rm16; iw
constructor OR_rm16_iw rm16, iw is OPERAND_SIZE; op = 0x81; reg = 1 ... & rm16; iw
constructor ADC_rm16_iw rm16, iw is OPERAND_SIZE; op = 0x81; reg = 2 ... & rm16; iw
constructor SBB_rm16_iw rm16, iw is OPERAND_SIZE; op = 0x81; reg = 3 ... & rm16; iw
constructor AND_rm16_iw rm16, iw is OPERAND_SIZE; op = 0x81; reg = 4 ... & rm16; iw
constructor SUB_rm16_iw rm16, iw is OPERAND_SIZE; op = 0x81; reg = 5 ... & rm16; iw
constructor XOR_rm16_iw rm16, iw is OPERAND_SIZE; op = 0x81; reg = 6 ... & rm16; iw
constructor CMP_rm16_iw rm16, iw is OPERAND_SIZE; op = 0x81; reg = 7 ... & rm16; iw
constructor ADD_rm16_ib rm16, ib is OPERAND_SIZE; op = 0x83; reg = 0 ... & rm16; ib
constructor OR_rm16_ib rm16, ib is OPERAND_SIZE; op = 0x83; reg = 1 ... & rm16; ib
constructor ADC_rm16_ib rm16, ib is OPERAND_SIZE; op = 0x83; reg = 2 ... & rm16; ib
constructor SBB_rm16_ib rm16, ib is OPERAND_SIZE; op = 0x83; reg = 3 ... & rm16; ib
constructor AND_rm16_ib rm16, ib is OPERAND_SIZE; op = 0x83; reg = 4 ... & rm16; ib
constructor SUB_rm16_ib rm16, ib is OPERAND_SIZE; op = 0x83; reg = 5 ... & rm16; ib
constructor XOR_rm16_ib rm16, ib is OPERAND_SIZE; op = 0x83; reg = 6 ... & rm16; ib
constructor CMP_rm16_ib rm16, ib is OPERAND_SIZE; op = 0x83; reg = 7 ... & rm16; ib
constructor TEST_rm16_r16 rm16, reg is OPERAND_SIZE; op = 0x85; reg ... & rm16
constructor MOV_rm16_r16 rm16, reg is OPERAND_SIZE; op = 0x89; reg ... & rm16
constructor MOV_r16_rm16 reg, rm16 is OPERAND_SIZE; op = 0x8B; reg ... & rm16
constructor MOVSW is OPERAND_SIZE; op = 0xA5
constructor STOSW is OPERAND_SIZE; op = 0xAB
constructor MOV_r16_iw plus, iw is OPERAND_SIZE; major = 0x17 & plus; iw
constructor MOV_rm16_iw rm16, iw is OPERAND_SIZE; op = 0xC7; reg = 0 ... & rm16; iw
constructor INC_rm16 rm16 is OPERAND_SIZE; op = 0xFF; reg = 0 ... & rm16
constructor DEC_rm16 rm16 is OPERAND_SIZE; op = 0xFF; reg = 1 ... & rm16

# F3: MOVS and STOS, ECX times.
constructor REP_MOVSB is REPEAT; op = 0xA4
constructor REP_MOVSD is REPEAT; op = 0xA5
constructor REP_STOSB is REPEAT; op = 0xAA
constructor REP_STOSD is REPEAT; op = 0xAB
"#;
