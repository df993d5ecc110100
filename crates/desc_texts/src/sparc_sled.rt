//! The text of sparc.sled.

/// The bytes of sparc.sled, as the file of that name has them.
pub const SPARC_SLED: &[u8] = br#"# SPARC V8, user level, integers: how instructions lie in bytes.
# After The SPARC Architecture Manual, Version 8: appendix B, "Instruction Definitions", and appendix F, "Opcodes and Condition Codes".
# The groups stand in the order of that appendix's tables, and constructors have the manual's names. Where two constructors match a
# word the first one counts.

order big
fields of word (32)
  all 0:31                                          # a whole instruction
  op 30:31                                          # the format
  op2 22:24 op3 19:24                               # the opcode in formats 2 and 3
  rd 25:29 rs1 14:18 i 13:13 simm13 0:12 rs2 0:4    # registers, and the second operand
  pair 26:29 odd 25:25                              # rd as the number of a pair of registers
  a 29:29 cond 25:28                                # annul, condition
  imm22 0:21 disp22 0:21 disp30 0:29

# ---- Second operands and addresses

constructor immediate simm13 : reg_or_imm is i = 1 & simm13
constructor register rs2 : reg_or_imm is i = 0 & rs2

constructor sum rs1, reg_or_imm : address is rs1 ... & reg_or_imm

# ---- op 0: UNIMP, Bicc, SETHI, told apart by op2. A word of 32 zeros is no instruction.

pattern bicc is op = 0 & op2 = 2 & a = 0            # bne, be, ..
pattern bicc_a is op = 0 & op2 = 2 & a = 1          # bne,a, be,a, ..

constructor UNIMP is op = 0 & rd = 0 & op2 = 0 & imm22 != 0

constructor BN disp22 is bicc & cond = 0 & disp22
constructor BE disp22 is bicc & cond = 1 & disp22
constructor BLE disp22 is bicc & cond = 2 & disp22
constructor BL disp22 is bicc & cond = 3 & disp22
constructor BLEU disp22 is bicc & cond = 4 & disp22
constructor BCS disp22 is bicc & cond = 5 & disp22
constructor BNEG disp22 is bicc & cond = 6 & disp22
constructor BVS disp22 is bicc & cond = 7 & disp22
constructor BA disp22 is bicc & cond = 8 & disp22
constructor BNE disp22 is bicc & cond = 9 & disp22
constructor BG disp22 is bicc & cond = 10 & disp22
constructor BGE disp22 is bicc & cond = 11 & disp22
constructor BGU disp22 is bicc & cond = 12 & disp22
constructor BCC disp22 is bicc & cond = 13 & disp22
constructor BPOS disp22 is bicc & cond = 14 & disp22
constructor BVC disp22 is bicc & cond = 15 & disp22

constructor BN_a disp22 is bicc_a & cond = 0 & disp22
constructor BE_a disp22 is bicc_a & cond = 1 & disp22
constructor BLE_a disp22 is bicc_a & cond = 2 & disp22
constructor BL_a disp22 is bicc_a & cond = 3 & disp22
constructor BLEU_a disp22 is bicc_a & cond = 4 & disp22
constructor BCS_a disp22 is bicc_a & cond = 5 & disp22
constructor BNEG_a disp22 is bicc_a & cond = 6 & disp22
constructor BVS_a disp22 is bicc_a & cond = 7 & disp22
constructor BA_a disp22 is bicc_a & cond = 8 & disp22
constructor BNE_a disp22 is bicc_a & cond = 9 & disp22
constructor BG_a disp22 is bicc_a & cond = 10 & disp22
constructor BGE_a disp22 is bicc_a & cond = 11 & disp22
constructor BGU_a disp22 is bicc_a & cond = 12 & disp22
constructor BCC_a disp22 is bicc_a & cond = 13 & disp22
constructor BPOS_a disp22 is bicc_a & cond = 14 & disp22
constructor BVC_a disp22 is bicc_a & cond = 15 & disp22

constructor SETHI imm22, rd is op = 0 & op2 = 4 & imm22 & rd      # nop is that of %g0

# ---- op 1: CALL

constructor CALL disp30 is op = 1 & disp30

# ---- op 2: arithmetic, logic, shifts, control, told apart by op3

pattern arith is op = 2

constructor ADD rs1, reg_or_imm, rd is arith & op3 = 0x00 & rs1 & rd ... & reg_or_imm
constructor AND rs1, reg_or_imm, rd is arith & op3 = 0x01 & rs1 & rd ... & reg_or_imm
constructor OR rs1, reg_or_imm, rd is arith & op3 = 0x02 & rs1 & rd ... & reg_or_imm
constructor XOR rs1, reg_or_imm, rd is arith & op3 = 0x03 & rs1 & rd ... & reg_or_imm
constructor SUB rs1, reg_or_imm, rd is arith & op3 = 0x04 & rs1 & rd ... & reg_or_imm
constructor ANDN rs1, reg_or_imm, rd is arith & op3 = 0x05 & rs1 & rd ... & reg_or_imm
constructor ORN rs1, reg_or_imm, rd is arith & op3 = 0x06 & rs1 & rd ... & reg_or_imm
constructor XNOR rs1, reg_or_imm, rd is arith & op3 = 0x07 & rs1 & rd ... & reg_or_imm
constructor ADDX rs1, reg_or_imm, rd is arith & op3 = 0x08 & rs1 & rd ... & reg_or_imm
constructor UMUL rs1, reg_or_imm, rd is arith & op3 = 0x0A & rs1 & rd ... & reg_or_imm
constructor SMUL rs1, reg_or_imm, rd is arith & op3 = 0x0B & rs1 & rd ... & reg_or_imm
constructor SUBX rs1, reg_or_imm, rd is arith & op3 = 0x0C & rs1 & rd ... & reg_or_imm
constructor UDIV rs1, reg_or_imm, rd is arith & op3 = 0x0E & rs1 & rd ... & reg_or_imm
constructor SDIV rs1, reg_or_imm, rd is arith & op3 = 0x0F & rs1 & rd ... & reg_or_imm

constructor ADDcc rs1, reg_or_imm, rd is arith & op3 = 0x10 & rs1 & rd ... & reg_or_imm
constructor ANDcc rs1, reg_or_imm, rd is arith & op3 = 0x11 & rs1 & rd ... & reg_or_imm
constructor ORcc rs1, reg_or_imm, rd is arith & op3 = 0x12 & rs1 & rd ... & reg_or_imm
constructor XORcc rs1, reg_or_imm, rd is arith & op3 = 0x13 & rs1 & rd ... & reg_or_imm
constructor SUBcc rs1, reg_or_imm, rd is arith & op3 = 0x14 & rs1 & rd ... & reg_or_imm
constructor ANDNcc rs1, reg_or_imm, rd is arith & op3 = 0x15 & rs1 & rd ... & reg_or_imm
constructor ORNcc rs1, reg_or_imm, rd is arith & op3 = 0x16 & rs1 & rd ... & reg_or_imm
constructor XNORcc rs1, reg_or_imm, rd is arith & op3 = 0x17 & rs1 & rd ... & reg_or_imm
constructor ADDXcc rs1, reg_or_imm, rd is arith & op3 = 0x18 & rs1 & rd ... & reg_or_imm
constructor UMULcc rs1, reg_or_imm, rd is arith & op3 = 0x1A & rs1 & rd ... & reg_or_imm
constructor SMULcc rs1, reg_or_imm, rd is arith & op3 = 0x1B & rs1 & rd ... & reg_or_imm
constructor SUBXcc rs1, reg_or_imm, rd is arith & op3 = 0x1C & rs1 & rd ... & reg_or_imm
constructor UDIVcc rs1, reg_or_imm, rd is arith & op3 = 0x1E & rs1 & rd ... & reg_or_imm
constructor SDIVcc rs1, reg_or_imm, rd is arith & op3 = 0x1F & rs1 & rd ... & reg_or_imm

constructor MULScc rs1, reg_or_imm, rd is arith & op3 = 0x24 & rs1 & rd ... & reg_or_imm
constructor SLL rs1, reg_or_imm, rd is arith & op3 = 0x25 & rs1 & rd ... & reg_or_imm
constructor SRL rs1, reg_or_imm, rd is arith & op3 = 0x26 & rs1 & rd ... & reg_or_imm
constructor SRA rs1, reg_or_imm, rd is arith & op3 = 0x27 & rs1 & rd ... & reg_or_imm

constructor RDY rd is arith & op3 = 0x28 & rs1 = 0 & rd
constructor WRY rs1, reg_or_imm is arith & op3 = 0x30 & rd = 0 & rs1 ... & reg_or_imm

# The returns are JMPL to %i7 or %o7 plus 8, or plus 12 behind a call of a function that returns a structure. JMPL that links %o7 is a call.
constructor RET_12 is all = 0x81C7E00C
constructor RETL_12 is all = 0x81C3E00C
constructor RET is all = 0x81C7E008
constructor RETL is all = 0x81C3E008
constructor JMPL_call address is arith & op3 = 0x38 & rd = 15 ... & address
constructor JMPL address, rd is arith & op3 = 0x38 & rd ... & address

constructor SERVICE is all = 0x91D02010             # ta 0x10
constructor TN address is arith & op3 = 0x3A & cond = 0 ... & address
constructor TE address is arith & op3 = 0x3A & cond = 1 ... & address
constructor TLE address is arith & op3 = 0x3A & cond = 2 ... & address
constructor TL address is arith & op3 = 0x3A & cond = 3 ... & address
constructor TLEU address is arith & op3 = 0x3A & cond = 4 ... & address
constructor TCS address is arith & op3 = 0x3A & cond = 5 ... & address
constructor TNEG address is arith & op3 = 0x3A & cond = 6 ... & address
constructor TVS address is arith & op3 = 0x3A & cond = 7 ... & address
constructor TA address is arith & op3 = 0x3A & cond = 8 ... & address
constructor TNE address is arith & op3 = 0x3A & cond = 9 ... & address
constructor TG address is arith & op3 = 0x3A & cond = 10 ... & address
constructor TGE address is arith & op3 = 0x3A & cond = 11 ... & address
constructor TGU address is arith & op3 = 0x3A & cond = 12 ... & address
constructor TCC address is arith & op3 = 0x3A & cond = 13 ... & address
constructor TPOS address is arith & op3 = 0x3A & cond = 14 ... & address
constructor TVC address is arith & op3 = 0x3A & cond = 15 ... & address

constructor SAVE rs1, reg_or_imm, rd is arith & op3 = 0x3C & rs1 & rd ... & reg_or_imm
constructor RESTORE rs1, reg_or_imm, rd is arith & op3 = 0x3D & rs1 & rd ... & reg_or_imm

# ---- op 3: loads and stores, told apart by op3. A pair begins with an even register.

pattern memory is op = 3

constructor LD address, rd is memory & op3 = 0x00 & rd ... & address
constructor LDUB address, rd is memory & op3 = 0x01 & rd ... & address
constructor LDUH address, rd is memory & op3 = 0x02 & rd ... & address
constructor LDD address, pair is memory & op3 = 0x03 & odd = 0 & pair ... & address
constructor ST rd, address is memory & op3 = 0x04 & rd ... & address
constructor STB rd, address is memory & op3 = 0x05 & rd ... & address
constructor STH rd, address is memory & op3 = 0x06 & rd ... & address
constructor STD pair, address is memory & op3 = 0x07 & odd = 0 & pair ... & address
constructor LDSB address, rd is memory & op3 = 0x09 & rd ... & address
constructor LDSH address, rd is memory & op3 = 0x0A & rd ... & address
constructor LDSTUB address, rd is memory & op3 = 0x0D & rd ... & address
constructor SWAP address, rd is memory & op3 = 0x0F & rd ... & address
"#;
