//! The text of i386.ssl.

/// The bytes of i386.ssl, as the file of that name has them.
pub const I386_SSL: &[u8] =
    br#"# The 80386 in 32-bit mode, user level, integers: what its instructions do.
#
# The groups are those of the encodings, in the same order. Flags are set exactly as the manual defines them; those
# that it leaves undefined stay as they were. The auxiliary flag is not kept.
align no
delay no

# Registers: EAX ECX EDX EBX ESP EBP ESI EDI, their low halves AX to DI, and the bytes AL CL DL BL AH CH DH BH.
cells r[8] 32
view r16[8] 16 is bits(r[0], 0, 15), bits(r[1], 0, 15), bits(r[2], 0, 15), bits(r[3], 0, 15),
  bits(r[4], 0, 15), bits(r[5], 0, 15), bits(r[6], 0, 15), bits(r[7], 0, 15)
view r8[8] 8 is bits(r[0], 0, 7), bits(r[1], 0, 7), bits(r[2], 0, 7), bits(r[3], 0, 7),
  bits(r[0], 8, 15), bits(r[1], 8, 15), bits(r[2], 8, 15), bits(r[3], 8, 15)

# Flags: carry, parity, zero, sign, overflow, direction.
cell CF 1
cell PF 1
cell ZF 1
cell SF 1
cell OF 1
cell DF 1

# Scratch, of which each instruction sets what it reads: the operands x and y, and the result z. They have 64 bits for
# operands of every size, so that what is carried or borrowed stands in z just above the result.
cell x 64
cell y 64
cell z 64

# Parity of the low byte of the result: 0x9669 has a 1 at each number of four bits that has an even number of ones.
function even() := bits((0x9669:16 >> zx(16, (bits(z, 0, 3) ^ bits(z, 4, 7)))), 0, 0)

# Zero, sign and carry of a result of 8, 16 or 32 bits. A sum or a difference overflows where the carry out of its
# highest bit is not the carry into it.
function zero8() := (bits(z, 0, 7) = 0:8)
function zero16() := (bits(z, 0, 15) = 0:16)
function zero32() := (bits(z, 0, 31) = 0:32)
function sign8() := bits(z, 7, 7)
function sign16() := bits(z, 15, 15)
function sign32() := bits(z, 31, 31)
function carry8() := bits(z, 8, 8)
function carry16() := bits(z, 16, 16)
function carry32() := bits(z, 32, 32)
function overflow8() := (carry8() ^ bits(((x ^ y) ^ z), 7, 7))
function overflow16() := (carry16() ^ bits(((x ^ y) ^ z), 15, 15))
function overflow32() := (carry32() ^ bits(((x ^ y) ^ z), 31, 31))

# The low byte or the low half of a signed product or quotient says less than the whole.
function cut8() := (z != sx(64, bits(z, 0, 7)))
function cut32() := (z != sx(64, bits(z, 0, 31)))

# Shifts, with the operand in x and the count in y: the bit of x that goes out last to the right.
function shifted_out() := bits((x >> (y - 1:64)), 0, 0)

# String instructions go up where the direction flag is 0, and down where it is 1; n is the size of an element.
function step(n : 32) := if(DF, - n, n)

# Operands in memory: the address.
operand MEM_disp32 (disp32) := disp32
operand MEM_index_disp32 (scale, index, disp32) := ((r[index] << zx(32, scale)) + disp32)
operand MEM_base (base) := r[base]
operand MEM_base_index (scale, index, base) := (r[base] + (r[index] << zx(32, scale)))
operand MEM_reg (rm) := r[rm]
operand MEM_base_disp8 (base, disp8) := (r[base] + sx(32, disp8))
operand MEM_base_index_disp8 (scale, index, base, disp8) := ((r[base] + (r[index] << zx(32, scale))) + sx(32, disp8))
operand MEM_reg_disp8 (rm, disp8) := (r[rm] + sx(32, disp8))
operand MEM_base_disp32 (base, disp32) := (r[base] + disp32)
operand MEM_base_index_disp32 (scale, index, base, disp32) := ((r[base] + (r[index] << zx(32, scale))) + disp32)
operand MEM_reg_disp32 (rm, disp32) := (r[rm] + disp32)

# Operands in a register or in memory.
operand RM8_reg (rm) := r8[rm]
operand RM8_mem (mem) := m8[mem]
operand RM16_reg (rm) := r16[rm]
operand RM16_mem (mem) := m16[mem]
operand RM32_reg (rm) := r[rm]
operand RM32_mem (mem) := m32[mem]

# Conditions.
operand cc_O () := OF
operand cc_NO () := ~ OF
operand cc_B () := CF
operand cc_AE () := ~ CF
operand cc_E () := ZF
operand cc_NE () := ~ ZF
operand cc_BE () := (CF | ZF)
operand cc_A () := ~ (CF | ZF)
operand cc_S () := SF
operand cc_NS () := ~ SF
operand cc_P () := PF
operand cc_NP () := ~ PF
operand cc_L () := (SF ^ OF)
operand cc_GE () := ~ (SF ^ OF)
operand cc_LE () := (ZF | (SF ^ OF))
operand cc_G () := ~ (ZF | (SF ^ OF))

# 00 to 3D: arithmetic and logic of two operands. CMP is SUB, and TEST (below) AND, without the result.
instruction ADD_rm8_r8 (rm8, reg) := *64* x := zx(64, rm8); *64* y := zx(64, r8[reg]); *64* z := (x + y);
  *8* rm8 := bits(z, 0, 7); *1* CF := carry8(); *1* PF := even(); *1* ZF := zero8(); *1* SF := sign8(); *1* OF := overflow8()
instruction ADD_rm32_r32 (rm32, reg) := *64* x := zx(64, rm32); *64* y := zx(64, r[reg]); *64* z := (x + y);
  *32* rm32 := bits(z, 0, 31); *1* CF := carry32(); *1* PF := even(); *1* ZF := zero32(); *1* SF := sign32(); *1* OF := overflow32()
instruction ADD_r8_rm8 (reg, rm8) := *64* x := zx(64, r8[reg]); *64* y := zx(64, rm8); *64* z := (x + y);
  *8* r8[reg] := bits(z, 0, 7); *1* CF := carry8(); *1* PF := even(); *1* ZF := zero8(); *1* SF := sign8(); *1* OF := overflow8()
instruction ADD_r32_rm32 (reg, rm32) := *64* x := zx(64, r[reg]); *64* y := zx(64, rm32); *64* z := (x + y);
  *32* r[reg] := bits(z, 0, 31); *1* CF := carry32(); *1* PF := even(); *1* ZF := zero32(); *1* SF := sign32(); *1* OF := overflow32()
instruction ADD_AL_ib (ib) := *64* x := zx(64, r8[0]); *64* y := zx(64, ib); *64* z := (x + y);
  *8* r8[0] := bits(z, 0, 7); *1* CF := carry8(); *1* PF := even(); *1* ZF := zero8(); *1* SF := sign8(); *1* OF := overflow8()
instruction ADD_EAX_id (id) := *64* x := zx(64, r[0]); *64* y := zx(64, id); *64* z := (x + y);
  *32* r[0] := bits(z, 0, 31); *1* CF := carry32(); *1* PF := even(); *1* ZF := zero32(); *1* SF := sign32(); *1* OF := overflow32()
instruction OR_rm8_r8 (rm8, reg) := *64* z := zx(64, (rm8 | r8[reg]));
  *8* rm8 := bits(z, 0, 7); *1* CF := 0:1; *1* PF := even(); *1* ZF := zero8(); *1* SF := sign8(); *1* OF := 0:1
instruction OR_rm32_r32 (rm32, reg) := *64* z := zx(64, (rm32 | r[reg]));
  *32* rm32 := bits(z, 0, 31); *1* CF := 0:1; *1* PF := even(); *1* ZF := zero32(); *1* SF := sign32(); *1* OF := 0:1
instruction OR_r8_rm8 (reg, rm8) := *64* z := zx(64, (r8[reg] | rm8));
  *8* r8[reg] := bits(z, 0, 7); *1* CF := 0:1; *1* PF := even(); *1* ZF := zero8(); *1* SF := sign8(); *1* OF := 0:1
instruction OR_r32_rm32 (reg, rm32) := *64* z := zx(64, (r[reg] | rm32));
  *32* r[reg] := bits(z, 0, 31); *1* CF := 0:1; *1* PF := even(); *1* ZF := zero32(); *1* SF := sign32(); *1* OF := 0:1
instruction OR_AL_ib (ib) := *64* z := zx(64, (r8[0] | ib));
  *8* r8[0] := bits(z, 0, 7); *1* CF := 0:1; *1* PF := even(); *1* ZF := zero8(); *1* SF := sign8(); *1* OF := 0:1
instruction OR_EAX_id (id) := *64* z := zx(64, (r[0] | id));
  *32* r[0] := bits(z, 0, 31); *1* CF := 0:1; *1* PF := even(); *1* ZF := zero32(); *1* SF := sign32(); *1* OF := 0:1
instruction ADC_rm8_r8 (rm8, reg) := *64* x := zx(64, rm8); *64* y := zx(64, r8[reg]); *64* z := ((x + y) + zx(64, CF));
  *8* rm8 := bits(z, 0, 7); *1* CF := carry8(); *1* PF := even(); *1* ZF := zero8(); *1* SF := sign8(); *1* OF := overflow8()
instruction ADC_rm32_r32 (rm32, reg) := *64* x := zx(64, rm32); *64* y := zx(64, r[reg]); *64* z := ((x + y) + zx(64, CF));
  *32* rm32 := bits(z, 0, 31); *1* CF := carry32(); *1* PF := even(); *1* ZF := zero32(); *1* SF := sign32(); *1* OF := overflow32()
instruction ADC_r8_rm8 (reg, rm8) := *64* x := zx(64, r8[reg]); *64* y := zx(64, rm8); *64* z := ((x + y) + zx(64, CF));
  *8* r8[reg] := bits(z, 0, 7); *1* CF := carry8(); *1* PF := even(); *1* ZF := zero8(); *1* SF := sign8(); *1* OF := overflow8()
instruction ADC_r32_rm32 (reg, rm32) := *64* x := zx(64, r[reg]); *64* y := zx(64, rm32); *64* z := ((x + y) + zx(64, CF));
  *32* r[reg] := bits(z, 0, 31); *1* CF := carry32(); *1* PF := even(); *1* ZF := zero32(); *1* SF := sign32(); *1* OF := overflow32()
instruction ADC_AL_ib (ib) := *64* x := zx(64, r8[0]); *64* y := zx(64, ib); *64* z := ((x + y) + zx(64, CF));
  *8* r8[0] := bits(z, 0, 7); *1* CF := carry8(); *1* PF := even(); *1* ZF := zero8(); *1* SF := sign8(); *1* OF := overflow8()
instruction ADC_EAX_id (id) := *64* x := zx(64, r[0]); *64* y := zx(64, id); *64* z := ((x + y) + zx(64, CF));
  *32* r[0] := bits(z, 0, 31); *1* CF := carry32(); *1* PF := even(); *1* ZF := zero32(); *1* SF := sign32(); *1* OF := overflow32()
instruction SBB_rm8_r8 (rm8, reg) := *64* x := zx(64, rm8); *64* y := zx(64, r8[reg]); *64* z := ((x - y) - zx(64, CF));
  *8* rm8 := bits(z, 0, 7); *1* CF := carry8(); *1* PF := even(); *1* ZF := zero8(); *1* SF := sign8(); *1* OF := overflow8()
instruction SBB_rm32_r32 (rm32, reg) := *64* x := zx(64, rm32); *64* y := zx(64, r[reg]); *64* z := ((x - y) - zx(64, CF));
  *32* rm32 := bits(z, 0, 31); *1* CF := carry32(); *1* PF := even(); *1* ZF := zero32(); *1* SF := sign32(); *1* OF := overflow32()
instruction SBB_r8_rm8 (reg, rm8) := *64* x := zx(64, r8[reg]); *64* y := zx(64, rm8); *64* z := ((x - y) - zx(64, CF));
  *8* r8[reg] := bits(z, 0, 7); *1* CF := carry8(); *1* PF := even(); *1* ZF := zero8(); *1* SF := sign8(); *1* OF := overflow8()
instruction SBB_r32_rm32 (reg, rm32) := *64* x := zx(64, r[reg]); *64* y := zx(64, rm32); *64* z := ((x - y) - zx(64, CF));
  *32* r[reg] := bits(z, 0, 31); *1* CF := carry32(); *1* PF := even(); *1* ZF := zero32(); *1* SF := sign32(); *1* OF := overflow32()
instruction SBB_AL_ib (ib) := *64* x := zx(64, r8[0]); *64* y := zx(64, ib); *64* z := ((x - y) - zx(64, CF));
  *8* r8[0] := bits(z, 0, 7); *1* CF := carry8(); *1* PF := even(); *1* ZF := zero8(); *1* SF := sign8(); *1* OF := overflow8()
instruction SBB_EAX_id (id) := *64* x := zx(64, r[0]); *64* y := zx(64, id); *64* z := ((x - y) - zx(64, CF));
  *32* r[0] := bits(z, 0, 31); *1* CF := carry32(); *1* PF := even(); *1* ZF := zero32(); *1* SF := sign32(); *1* OF := overflow32()
instruction AND_rm8_r8 (rm8, reg) := *64* z := zx(64, (rm8 & r8[reg]));
  *8* rm8 := bits(z, 0, 7); *1* CF := 0:1; *1* PF := even(); *1* ZF := zero8(); *1* SF := sign8(); *1* OF := 0:1
instruction AND_rm32_r32 (rm32, reg) := *64* z := zx(64, (rm32 & r[reg]));
  *32* rm32 := bits(z, 0, 31); *1* CF := 0:1; *1* PF := even(); *1* ZF := zero32(); *1* SF := sign32(); *1* OF := 0:1
instruction AND_r8_rm8 (reg, rm8) := *64* z := zx(64, (r8[reg] & rm8));
  *8* r8[reg] := bits(z, 0, 7); *1* CF := 0:1; *1* PF := even(); *1* ZF := zero8(); *1* SF := sign8(); *1* OF := 0:1
instruction AND_r32_rm32 (reg, rm32) := *64* z := zx(64, (r[reg] & rm32));
  *32* r[reg] := bits(z, 0, 31); *1* CF := 0:1; *1* PF := even(); *1* ZF := zero32(); *1* SF := sign32(); *1* OF := 0:1
instruction AND_AL_ib (ib) := *64* z := zx(64, (r8[0] & ib));
  *8* r8[0] := bits(z, 0, 7); *1* CF := 0:1; *1* PF := even(); *1* ZF := zero8(); *1* SF := sign8(); *1* OF := 0:1
instruction AND_EAX_id (id) := *64* z := zx(64, (r[0] & id));
  *32* r[0] := bits(z, 0, 31); *1* CF := 0:1; *1* PF := even(); *1* ZF := zero32(); *1* SF := sign32(); *1* OF := 0:1
instruction SUB_rm8_r8 (rm8, reg) := *64* x := zx(64, rm8); *64* y := zx(64, r8[reg]); *64* z := (x - y);
  *8* rm8 := bits(z, 0, 7); *1* CF := carry8(); *1* PF := even(); *1* ZF := zero8(); *1* SF := sign8(); *1* OF := overflow8()
instruction SUB_rm32_r32 (rm32, reg) := *64* x := zx(64, rm32); *64* y := zx(64, r[reg]); *64* z := (x - y);
  *32* rm32 := bits(z, 0, 31); *1* CF := carry32(); *1* PF := even(); *1* ZF := zero32(); *1* SF := sign32(); *1* OF := overflow32()
instruction SUB_r8_rm8 (reg, rm8) := *64* x := zx(64, r8[reg]); *64* y := zx(64, rm8); *64* z := (x - y);
  *8* r8[reg] := bits(z, 0, 7); *1* CF := carry8(); *1* PF := even(); *1* ZF := zero8(); *1* SF := sign8(); *1* OF := overflow8()
instruction SUB_r32_rm32 (reg, rm32) := *64* x := zx(64, r[reg]); *64* y := zx(64, rm32); *64* z := (x - y);
  *32* r[reg] := bits(z, 0, 31); *1* CF := carry32(); *1* PF := even(); *1* ZF := zero32(); *1* SF := sign32(); *1* OF := overflow32()
instruction SUB_AL_ib (ib) := *64* x := zx(64, r8[0]); *64* y := zx(64, ib); *64* z := (x - y);
  *8* r8[0] := bits(z, 0, 7); *1* CF := carry8(); *1* PF := even(); *1* ZF := zero8(); *1* SF := sign8(); *1* OF := overflow8()
instruction SUB_EAX_id (id) := *64* x := zx(64, r[0]); *64* y := zx(64, id); *64* z := (x - y);
  *32* r[0] := bits(z, 0, 31); *1* CF := carry32(); *1* PF := even(); *1* ZF := zero32(); *1* SF := sign32(); *1* OF := overflow32()
instruction XOR_rm8_r8 (rm8, reg) := *64* z := zx(64, (rm8 ^ r8[reg]));
  *8* rm8 := bits(z, 0, 7); *1* CF := 0:1; *1* PF := even(); *1* ZF := zero8(); *1* SF := sign8(); *1* OF := 0:1
instruction XOR_rm32_r32 (rm32, reg) := *64* z := zx(64, (rm32 ^ r[reg]));
  *32* rm32 := bits(z, 0, 31); *1* CF := 0:1; *1* PF := even(); *1* ZF := zero32(); *1* SF := sign32(); *1* OF := 0:1
instruction XOR_r8_rm8 (reg, rm8) := *64* z := zx(64, (r8[reg] ^ rm8));
  *8* r8[reg] := bits(z, 0, 7); *1* CF := 0:1; *1* PF := even(); *1* ZF := zero8(); *1* SF := sign8(); *1* OF := 0:1
instruction XOR_r32_rm32 (reg, rm32) := *64* z := zx(64, (r[reg] ^ rm32));
  *32* r[reg] := bits(z, 0, 31); *1* CF := 0:1; *1* PF := even(); *1* ZF := zero32(); *1* SF := sign32(); *1* OF := 0:1
instruction XOR_AL_ib (ib) := *64* z := zx(64, (r8[0] ^ ib));
  *8* r8[0] := bits(z, 0, 7); *1* CF := 0:1; *1* PF := even(); *1* ZF := zero8(); *1* SF := sign8(); *1* OF := 0:1
instruction XOR_EAX_id (id) := *64* z := zx(64, (r[0] ^ id));
  *32* r[0] := bits(z, 0, 31); *1* CF := 0:1; *1* PF := even(); *1* ZF := zero32(); *1* SF := sign32(); *1* OF := 0:1
instruction CMP_rm8_r8 (rm8, reg) := *64* x := zx(64, rm8); *64* y := zx(64, r8[reg]); *64* z := (x - y);
  *1* CF := carry8(); *1* PF := even(); *1* ZF := zero8(); *1* SF := sign8(); *1* OF := overflow8()
instruction CMP_rm32_r32 (rm32, reg) := *64* x := zx(64, rm32); *64* y := zx(64, r[reg]); *64* z := (x - y);
  *1* CF := carry32(); *1* PF := even(); *1* ZF := zero32(); *1* SF := sign32(); *1* OF := overflow32()
instruction CMP_r8_rm8 (reg, rm8) := *64* x := zx(64, r8[reg]); *64* y := zx(64, rm8); *64* z := (x - y);
  *1* CF := carry8(); *1* PF := even(); *1* ZF := zero8(); *1* SF := sign8(); *1* OF := overflow8()
instruction CMP_r32_rm32 (reg, rm32) := *64* x := zx(64, r[reg]); *64* y := zx(64, rm32); *64* z := (x - y);
  *1* CF := carry32(); *1* PF := even(); *1* ZF := zero32(); *1* SF := sign32(); *1* OF := overflow32()
instruction CMP_AL_ib (ib) := *64* x := zx(64, r8[0]); *64* y := zx(64, ib); *64* z := (x - y);
  *1* CF := carry8(); *1* PF := even(); *1* ZF := zero8(); *1* SF := sign8(); *1* OF := overflow8()
instruction CMP_EAX_id (id) := *64* x := zx(64, r[0]); *64* y := zx(64, id); *64* z := (x - y);
  *1* CF := carry32(); *1* PF := even(); *1* ZF := zero32(); *1* SF := sign32(); *1* OF := overflow32()

# 40 to 5F: INC and DEC, which leave the carry as it was, PUSH and POP.
# PUSH ESP pushes ESP as it was before; POP ESP leaves what was popped.
instruction INC_r32 (plus) := *64* x := zx(64, r[plus]); *64* y := 1:64; *64* z := (x + y);
  *32* r[plus] := bits(z, 0, 31); *1* PF := even(); *1* ZF := zero32(); *1* SF := sign32(); *1* OF := overflow32()
instruction DEC_r32 (plus) := *64* x := zx(64, r[plus]); *64* y := 1:64; *64* z := (x - y);
  *32* r[plus] := bits(z, 0, 31); *1* PF := even(); *1* ZF := zero32(); *1* SF := sign32(); *1* OF := overflow32()
instruction PUSH_r32 (plus) := *32* m32[(r[4] - 4:32)] := r[plus]; *32* r[4] := (r[4] - 4:32)
instruction POP_r32 (plus) := *64* x := zx(64, m32[r[4]]); *32* r[4] := (r[4] + 4:32); *32* r[plus] := bits(x, 0, 31)

# 68 to 6B: PUSH of an immediate, IMUL of three operands.
# A product's carry and overflow say that it was cut; the manual leaves the other flags undefined.
instruction PUSH_id (id) := *32* m32[(r[4] - 4:32)] := id; *32* r[4] := (r[4] - 4:32)
instruction IMUL_r32_rm32_id (reg, rm32, id) := *64* z := (sx(64, rm32) * sx(64, id)); *32* r[reg] := bits(z, 0, 31);
  *1* CF := cut32(); *1* OF := CF
instruction PUSH_ib (ib) := *32* m32[(r[4] - 4:32)] := sx(32, ib); *32* r[4] := (r[4] - 4:32)
instruction IMUL_r32_rm32_ib (reg, rm32, ib) := *64* z := (sx(64, rm32) * sx(64, ib)); *32* r[reg] := bits(z, 0, 31);
  *1* CF := cut32(); *1* OF := CF

# 70 to 7F: conditional jumps.
instruction Jcc_rel8 (cond, rel8) := cond => jump (%next + sx(32, rel8))

# 80, 81, 83: arithmetic and logic with an immediate; the byte of 83 is sign-extended.
instruction ADD_rm8_ib (rm8, ib) := *64* x := zx(64, rm8); *64* y := zx(64, ib); *64* z := (x + y);
  *8* rm8 := bits(z, 0, 7); *1* CF := carry8(); *1* PF := even(); *1* ZF := zero8(); *1* SF := sign8(); *1* OF := overflow8()
instruction OR_rm8_ib (rm8, ib) := *64* z := zx(64, (rm8 | ib));
  *8* rm8 := bits(z, 0, 7); *1* CF := 0:1; *1* PF := even(); *1* ZF := zero8(); *1* SF := sign8(); *1* OF := 0:1
instruction ADC_rm8_ib (rm8, ib) := *64* x := zx(64, rm8); *64* y := zx(64, ib); *64* z := ((x + y) + zx(64, CF));
  *8* rm8 := bits(z, 0, 7); *1* CF := carry8(); *1* PF := even(); *1* ZF := zero8(); *1* SF := sign8(); *1* OF := overflow8()
instruction SBB_rm8_ib (rm8, ib) := *64* x := zx(64, rm8); *64* y := zx(64, ib); *64* z := ((x - y) - zx(64, CF));
  *8* rm8 := bits(z, 0, 7); *1* CF := carry8(); *1* PF := even(); *1* ZF := zero8(); *1* SF := sign8(); *1* OF := overflow8()
instruction AND_rm8_ib (rm8, ib) := *64* z := zx(64, (rm8 & ib));
  *8* rm8 := bits(z, 0, 7); *1* CF := 0:1; *1* PF := even(); *1* ZF := zero8(); *1* SF := sign8(); *1* OF := 0:1
instruction SUB_rm8_ib (rm8, ib) := *64* x := zx(64, rm8); *64* y := zx(64, ib); *64* z := (x - y);
  *8* rm8 := bits(z, 0, 7); *1* CF := carry8(); *1* PF := even(); *1* ZF := zero8(); *1* SF := sign8(); *1* OF := overflow8()
instruction XOR_rm8_ib (rm8, ib) := *64* z := zx(64, (rm8 ^ ib));
  *8* rm8 := bits(z, 0, 7); *1* CF := 0:1; *1* PF := even(); *1* ZF := zero8(); *1* SF := sign8(); *1* OF := 0:1
instruction CMP_rm8_ib (rm8, ib) := *64* x := zx(64, rm8); *64* y := zx(64, ib); *64* z := (x - y);
  *1* CF := carry8(); *1* PF := even(); *1* ZF := zero8(); *1* SF := sign8(); *1* OF := overflow8()
instruction ADD_rm32_id (rm32, id) := *64* x := zx(64, rm32); *64* y := zx(64, id); *64* z := (x + y);
  *32* rm32 := bits(z, 0, 31); *1* CF := carry32(); *1* PF := even(); *1* ZF := zero32(); *1* SF := sign32(); *1* OF := overflow32()
instruction OR_rm32_id (rm32, id) := *64* z := zx(64, (rm32 | id));
  *32* rm32 := bits(z, 0, 31); *1* CF := 0:1; *1* PF := even(); *1* ZF := zero32(); *1* SF := sign32(); *1* OF := 0:1
instruction ADC_rm32_id (rm32, id) := *64* x := zx(64, rm32); *64* y := zx(64, id); *64* z := ((x + y) + zx(64, CF));
  *32* rm32 := bits(z, 0, 31); *1* CF := carry32(); *1* PF := even(); *1* ZF := zero32(); *1* SF := sign32(); *1* OF := overflow32()
instruction SBB_rm32_id (rm32, id) := *64* x := zx(64, rm32); *64* y := zx(64, id); *64* z := ((x - y) - zx(64, CF));
  *32* rm32 := bits(z, 0, 31); *1* CF := carry32(); *1* PF := even(); *1* ZF := zero32(); *1* SF := sign32(); *1* OF := overflow32()
instruction AND_rm32_id (rm32, id) := *64* z := zx(64, (rm32 & id));
  *32* rm32 := bits(z, 0, 31); *1* CF := 0:1; *1* PF := even(); *1* ZF := zero32(); *1* SF := sign32(); *1* OF := 0:1
instruction SUB_rm32_id (rm32, id) := *64* x := zx(64, rm32); *64* y := zx(64, id); *64* z := (x - y);
  *32* rm32 := bits(z, 0, 31); *1* CF := carry32(); *1* PF := even(); *1* ZF := zero32(); *1* SF := sign32(); *1* OF := overflow32()
instruction XOR_rm32_id (rm32, id) := *64* z := zx(64, (rm32 ^ id));
  *32* rm32 := bits(z, 0, 31); *1* CF := 0:1; *1* PF := even(); *1* ZF := zero32(); *1* SF := sign32(); *1* OF := 0:1
instruction CMP_rm32_id (rm32, id) := *64* x := zx(64, rm32); *64* y := zx(64, id); *64* z := (x - y);
  *1* CF := carry32(); *1* PF := even(); *1* ZF := zero32(); *1* SF := sign32(); *1* OF := overflow32()
instruction ADD_rm32_ib (rm32, ib) := *64* x := zx(64, rm32); *64* y := zx(64, sx(32, ib)); *64* z := (x + y);
  *32* rm32 := bits(z, 0, 31); *1* CF := carry32(); *1* PF := even(); *1* ZF := zero32(); *1* SF := sign32(); *1* OF := overflow32()
instruction OR_rm32_ib (rm32, ib) := *64* z := zx(64, (rm32 | sx(32, ib)));
  *32* rm32 := bits(z, 0, 31); *1* CF := 0:1; *1* PF := even(); *1* ZF := zero32(); *1* SF := sign32(); *1* OF := 0:1
instruction ADC_rm32_ib (rm32, ib) := *64* x := zx(64, rm32); *64* y := zx(64, sx(32, ib)); *64* z := ((x + y) + zx(64, CF));
  *32* rm32 := bits(z, 0, 31); *1* CF := carry32(); *1* PF := even(); *1* ZF := zero32(); *1* SF := sign32(); *1* OF := overflow32()
instruction SBB_rm32_ib (rm32, ib) := *64* x := zx(64, rm32); *64* y := zx(64, sx(32, ib)); *64* z := ((x - y) - zx(64, CF));
  *32* rm32 := bits(z, 0, 31); *1* CF := carry32(); *1* PF := even(); *1* ZF := zero32(); *1* SF := sign32(); *1* OF := overflow32()
instruction AND_rm32_ib (rm32, ib) := *64* z := zx(64, (rm32 & sx(32, ib)));
  *32* rm32 := bits(z, 0, 31); *1* CF := 0:1; *1* PF := even(); *1* ZF := zero32(); *1* SF := sign32(); *1* OF := 0:1
instruction SUB_rm32_ib (rm32, ib) := *64* x := zx(64, rm32); *64* y := zx(64, sx(32, ib)); *64* z := (x - y);
  *32* rm32 := bits(z, 0, 31); *1* CF := carry32(); *1* PF := even(); *1* ZF := zero32(); *1* SF := sign32(); *1* OF := overflow32()
instruction XOR_rm32_ib (rm32, ib) := *64* z := zx(64, (rm32 ^ sx(32, ib)));
  *32* rm32 := bits(z, 0, 31); *1* CF := 0:1; *1* PF := even(); *1* ZF := zero32(); *1* SF := sign32(); *1* OF := 0:1
instruction CMP_rm32_ib (rm32, ib) := *64* x := zx(64, rm32); *64* y := zx(64, sx(32, ib)); *64* z := (x - y);
  *1* CF := carry32(); *1* PF := even(); *1* ZF := zero32(); *1* SF := sign32(); *1* OF := overflow32()

# 84 to 8D: TEST, XCHG, MOV, LEA.
instruction TEST_rm8_r8 (rm8, reg) := *64* z := zx(64, (rm8 & r8[reg]));
  *1* CF := 0:1; *1* PF := even(); *1* ZF := zero8(); *1* SF := sign8(); *1* OF := 0:1
instruction TEST_rm32_r32 (rm32, reg) := *64* z := zx(64, (rm32 & r[reg]));
  *1* CF := 0:1; *1* PF := even(); *1* ZF := zero32(); *1* SF := sign32(); *1* OF := 0:1
instruction XCHG_rm8_r8 (rm8, reg) := *64* x := zx(64, rm8); *8* rm8 := r8[reg]; *8* r8[reg] := bits(x, 0, 7)
instruction XCHG_rm32_r32 (rm32, reg) := *64* x := zx(64, rm32); *32* rm32 := r[reg]; *32* r[reg] := bits(x, 0, 31)
instruction MOV_rm8_r8 (rm8, reg) := *8* rm8 := r8[reg]
instruction MOV_rm32_r32 (rm32, reg) := *32* rm32 := r[reg]
instruction MOV_r8_rm8 (reg, rm8) := *8* r8[reg] := rm8
instruction MOV_r32_rm32 (reg, rm32) := *32* r[reg] := rm32
instruction LEA_r32_m (reg, mem) := *32* r[reg] := mem

# 90 to 99: NOP, CWDE, CDQ.
instruction NOP () := none
instruction CWDE () := *32* r[0] := sx(32, r16[0])
instruction CDQ () := *32* r[2] := sx(32, bits(r[0], 31, 31))

# A4 to AB: MOVS, TEST of AL and EAX, STOS. Those behind a prefix stand at the end.
instruction MOVSB () := *8* m8[r[7]] := m8[r[6]]; *32* r[6] := (r[6] + step(1:32)); *32* r[7] := (r[7] + step(1:32))
instruction MOVSD () := *32* m32[r[7]] := m32[r[6]]; *32* r[6] := (r[6] + step(4:32)); *32* r[7] := (r[7] + step(4:32))
instruction TEST_AL_ib (ib) := *64* z := zx(64, (r8[0] & ib));
  *1* CF := 0:1; *1* PF := even(); *1* ZF := zero8(); *1* SF := sign8(); *1* OF := 0:1
instruction TEST_EAX_id (id) := *64* z := zx(64, (r[0] & id));
  *1* CF := 0:1; *1* PF := even(); *1* ZF := zero32(); *1* SF := sign32(); *1* OF := 0:1
instruction STOSB () := *8* m8[r[7]] := r8[0]; *32* r[7] := (r[7] + step(1:32))
instruction STOSD () := *32* m32[r[7]] := r[0]; *32* r[7] := (r[7] + step(4:32))

# B0 to BF: MOV of an immediate to a register.
instruction MOV_r8_ib (plus, ib) := *8* r8[plus] := ib
instruction MOV_r32_id (plus, id) := *32* r[plus] := id

# Shifts. The count is taken modulo 32; a count of 0 changes no flag, and only a count of 1 the overflow.
function moved() := (y != 0:64)
function once() := (y = 1:64)

# C0, C1: shifts by an immediate.
instruction SHL_rm8_ib (rm8, ib) := *64* x := zx(64, rm8); *64* y := zx(64, (ib & 31:8)); *64* z := (x << y);
  *8* rm8 := bits(z, 0, 7);
  moved() => *1* CF := carry8(); moved() => *1* PF := even(); moved() => *1* ZF := zero8(); moved() => *1* SF := sign8();
  once() => *1* OF := (sign8() ^ CF)
instruction SHR_rm8_ib (rm8, ib) := *64* x := zx(64, rm8); *64* y := zx(64, (ib & 31:8)); *64* z := (x >> y);
  *8* rm8 := bits(z, 0, 7);
  moved() => *1* CF := shifted_out(); moved() => *1* PF := even(); moved() => *1* ZF := zero8(); moved() => *1* SF := sign8();
  once() => *1* OF := bits(x, 7, 7)
instruction SAR_rm8_ib (rm8, ib) := *64* x := sx(64, rm8); *64* y := zx(64, (ib & 31:8)); *64* z := (x >>! y);
  *8* rm8 := bits(z, 0, 7);
  moved() => *1* CF := shifted_out(); moved() => *1* PF := even(); moved() => *1* ZF := zero8(); moved() => *1* SF := sign8();
  once() => *1* OF := 0:1
instruction SHL_rm32_ib (rm32, ib) := *64* x := zx(64, rm32); *64* y := zx(64, (ib & 31:8)); *64* z := (x << y);
  *32* rm32 := bits(z, 0, 31);
  moved() => *1* CF := carry32(); moved() => *1* PF := even(); moved() => *1* ZF := zero32(); moved() => *1* SF := sign32();
  once() => *1* OF := (sign32() ^ CF)
instruction SHR_rm32_ib (rm32, ib) := *64* x := zx(64, rm32); *64* y := zx(64, (ib & 31:8)); *64* z := (x >> y);
  *32* rm32 := bits(z, 0, 31);
  moved() => *1* CF := shifted_out(); moved() => *1* PF := even(); moved() => *1* ZF := zero32(); moved() => *1* SF := sign32();
  once() => *1* OF := bits(x, 31, 31)
instruction SAR_rm32_ib (rm32, ib) := *64* x := sx(64, rm32); *64* y := zx(64, (ib & 31:8)); *64* z := (x >>! y);
  *32* rm32 := bits(z, 0, 31);
  moved() => *1* CF := shifted_out(); moved() => *1* PF := even(); moved() => *1* ZF := zero32(); moved() => *1* SF := sign32();
  once() => *1* OF := 0:1

# C3 to CD: RET, MOV of an immediate, LEAVE, INT.
instruction RET () := jump m32[r[4]]; *32* r[4] := (r[4] + 4:32)
instruction MOV_rm8_ib (rm8, ib) := *8* rm8 := ib
instruction MOV_rm32_id (rm32, id) := *32* rm32 := id
instruction LEAVE () := *64* x := zx(64, m32[r[5]]); *32* r[4] := (r[5] + 4:32); *32* r[5] := bits(x, 0, 31)
# Interrupt 0x80 calls a service, any other is a trap.
instruction INT_80 () := service
instruction INT_ib (ib) := trap zx(32, ib)

# D0 to D3: shifts by 1 and by CL.
instruction SHL_rm8_1 (rm8) := *64* x := zx(64, rm8); *64* y := 1:64; *64* z := (x << y); *8* rm8 := bits(z, 0, 7);
  *1* CF := carry8(); *1* PF := even(); *1* ZF := zero8(); *1* SF := sign8(); *1* OF := (sign8() ^ CF)
instruction SHR_rm8_1 (rm8) := *64* x := zx(64, rm8); *64* y := 1:64; *64* z := (x >> y); *8* rm8 := bits(z, 0, 7);
  *1* CF := shifted_out(); *1* PF := even(); *1* ZF := zero8(); *1* SF := sign8(); *1* OF := bits(x, 7, 7)
instruction SAR_rm8_1 (rm8) := *64* x := sx(64, rm8); *64* y := 1:64; *64* z := (x >>! y); *8* rm8 := bits(z, 0, 7);
  *1* CF := shifted_out(); *1* PF := even(); *1* ZF := zero8(); *1* SF := sign8(); *1* OF := 0:1
instruction SHL_rm32_1 (rm32) := *64* x := zx(64, rm32); *64* y := 1:64; *64* z := (x << y); *32* rm32 := bits(z, 0, 31);
  *1* CF := carry32(); *1* PF := even(); *1* ZF := zero32(); *1* SF := sign32(); *1* OF := (sign32() ^ CF)
instruction SHR_rm32_1 (rm32) := *64* x := zx(64, rm32); *64* y := 1:64; *64* z := (x >> y); *32* rm32 := bits(z, 0, 31);
  *1* CF := shifted_out(); *1* PF := even(); *1* ZF := zero32(); *1* SF := sign32(); *1* OF := bits(x, 31, 31)
instruction SAR_rm32_1 (rm32) := *64* x := sx(64, rm32); *64* y := 1:64; *64* z := (x >>! y); *32* rm32 := bits(z, 0, 31);
  *1* CF := shifted_out(); *1* PF := even(); *1* ZF := zero32(); *1* SF := sign32(); *1* OF := 0:1
instruction SHL_rm8_CL (rm8) := *64* x := zx(64, rm8); *64* y := zx(64, (r8[1] & 31:8)); *64* z := (x << y); *8* rm8 := bits(z, 0, 7);
  moved() => *1* CF := carry8(); moved() => *1* PF := even(); moved() => *1* ZF := zero8(); moved() => *1* SF := sign8();
  once() => *1* OF := (sign8() ^ CF)
instruction SHR_rm8_CL (rm8) := *64* x := zx(64, rm8); *64* y := zx(64, (r8[1] & 31:8)); *64* z := (x >> y); *8* rm8 := bits(z, 0, 7);
  moved() => *1* CF := shifted_out(); moved() => *1* PF := even(); moved() => *1* ZF := zero8(); moved() => *1* SF := sign8();
  once() => *1* OF := bits(x, 7, 7)
instruction SAR_rm8_CL (rm8) := *64* x := sx(64, rm8); *64* y := zx(64, (r8[1] & 31:8)); *64* z := (x >>! y);
  *8* rm8 := bits(z, 0, 7);
  moved() => *1* CF := shifted_out(); moved() => *1* PF := even(); moved() => *1* ZF := zero8(); moved() => *1* SF := sign8();
  once() => *1* OF := 0:1
instruction SHL_rm32_CL (rm32) := *64* x := zx(64, rm32); *64* y := zx(64, (r8[1] & 31:8)); *64* z := (x << y);
  *32* rm32 := bits(z, 0, 31);
  moved() => *1* CF := carry32(); moved() => *1* PF := even(); moved() => *1* ZF := zero32(); moved() => *1* SF := sign32();
  once() => *1* OF := (sign32() ^ CF)
instruction SHR_rm32_CL (rm32) := *64* x := zx(64, rm32); *64* y := zx(64, (r8[1] & 31:8)); *64* z := (x >> y);
  *32* rm32 := bits(z, 0, 31);
  moved() => *1* CF := shifted_out(); moved() => *1* PF := even(); moved() => *1* ZF := zero32(); moved() => *1* SF := sign32();
  once() => *1* OF := bits(x, 31, 31)
instruction SAR_rm32_CL (rm32) := *64* x := sx(64, rm32); *64* y := zx(64, (r8[1] & 31:8)); *64* z := (x >>! y);
  *32* rm32 := bits(z, 0, 31);
  moved() => *1* CF := shifted_out(); moved() => *1* PF := even(); moved() => *1* ZF := zero32(); moved() => *1* SF := sign32();
  once() => *1* OF := 0:1

# E8, E9, EB: CALL, JMP.
instruction CALL_rel32 (rel32) := jump (%next + rel32); *32* m32[(r[4] - 4:32)] := %next; *32* r[4] := (r[4] - 4:32)
instruction JMP_rel32 (rel32) := jump (%next + rel32)
instruction JMP_rel8 (rel8) := jump (%next + sx(32, rel8))

# F6, F7: TEST, NOT, NEG, MUL, IMUL, DIV, IDIV.
# NEG is 0 - operand. A division by 0 traps by itself; a quotient too large is trap 0, and the flags stay as they were.
function edx_eax() := ((zx(64, r[2]) << 32:64) | zx(64, r[0]))
instruction TEST_rm8_ib (rm8, ib) := *64* z := zx(64, (rm8 & ib));
  *1* CF := 0:1; *1* PF := even(); *1* ZF := zero8(); *1* SF := sign8(); *1* OF := 0:1
instruction NOT_rm8 (rm8) := *8* rm8 := ~ rm8
instruction NEG_rm8 (rm8) := *64* x := 0:64; *64* y := zx(64, rm8); *64* z := (x - y);
  *8* rm8 := bits(z, 0, 7); *1* CF := carry8(); *1* PF := even(); *1* ZF := zero8(); *1* SF := sign8(); *1* OF := overflow8()
instruction MUL_rm8 (rm8) := *64* z := (zx(64, r8[0]) * zx(64, rm8)); *16* r16[0] := bits(z, 0, 15);
  *1* CF := (bits(z, 8, 15) != 0:8); *1* OF := CF
instruction IMUL_rm8 (rm8) := *64* z := (sx(64, r8[0]) * sx(64, rm8)); *16* r16[0] := bits(z, 0, 15); *1* CF := cut8(); *1* OF := CF
instruction DIV_rm8 (rm8) := *64* x := zx(64, r16[0]); *64* y := zx(64, rm8); *64* z := (x / y);
  (bits(z, 8, 63) != 0:56) => trap 0:32;
  *8* r8[0] := bits(z, 0, 7); *8* r8[4] := bits((x // y), 0, 7)
instruction IDIV_rm8 (rm8) := *64* x := sx(64, r16[0]); *64* y := sx(64, rm8); *64* z := (x /! y); cut8() => trap 0:32;
  *8* r8[0] := bits(z, 0, 7); *8* r8[4] := bits((x //! y), 0, 7)
instruction TEST_rm32_id (rm32, id) := *64* z := zx(64, (rm32 & id));
  *1* CF := 0:1; *1* PF := even(); *1* ZF := zero32(); *1* SF := sign32(); *1* OF := 0:1
instruction NOT_rm32 (rm32) := *32* rm32 := ~ rm32
instruction NEG_rm32 (rm32) := *64* x := 0:64; *64* y := zx(64, rm32); *64* z := (x - y);
  *32* rm32 := bits(z, 0, 31); *1* CF := carry32(); *1* PF := even(); *1* ZF := zero32(); *1* SF := sign32(); *1* OF := overflow32()
instruction MUL_rm32 (rm32) := *64* z := (zx(64, r[0]) * zx(64, rm32)); *32* r[0] := bits(z, 0, 31); *32* r[2] := bits(z, 32, 63);
  *1* CF := (bits(z, 32, 63) != 0:32); *1* OF := CF
instruction IMUL_rm32 (rm32) := *64* z := (sx(64, r[0]) * sx(64, rm32)); *32* r[0] := bits(z, 0, 31); *32* r[2] := bits(z, 32, 63);
  *1* CF := cut32(); *1* OF := CF
instruction DIV_rm32 (rm32) := *64* x := edx_eax(); *64* y := zx(64, rm32); *64* z := (x / y); (bits(z, 32, 63) != 0:32) => trap 0:32;
  *32* r[0] := bits(z, 0, 31); *32* r[2] := bits((x // y), 0, 31)
instruction IDIV_rm32 (rm32) := *64* x := edx_eax(); *64* y := sx(64, rm32); *64* z := (x /! y); cut32() => trap 0:32;
  *32* r[0] := bits(z, 0, 31); *32* r[2] := bits((x //! y), 0, 31)

# FE, FF: INC, DEC, CALL, JMP, PUSH.
instruction INC_rm8 (rm8) := *64* x := zx(64, rm8); *64* y := 1:64; *64* z := (x + y);
  *8* rm8 := bits(z, 0, 7); *1* PF := even(); *1* ZF := zero8(); *1* SF := sign8(); *1* OF := overflow8()
instruction DEC_rm8 (rm8) := *64* x := zx(64, rm8); *64* y := 1:64; *64* z := (x - y);
  *8* rm8 := bits(z, 0, 7); *1* PF := even(); *1* ZF := zero8(); *1* SF := sign8(); *1* OF := overflow8()
instruction INC_rm32 (rm32) := *64* x := zx(64, rm32); *64* y := 1:64; *64* z := (x + y);
  *32* rm32 := bits(z, 0, 31); *1* PF := even(); *1* ZF := zero32(); *1* SF := sign32(); *1* OF := overflow32()
instruction DEC_rm32 (rm32) := *64* x := zx(64, rm32); *64* y := 1:64; *64* z := (x - y);
  *32* rm32 := bits(z, 0, 31); *1* PF := even(); *1* ZF := zero32(); *1* SF := sign32(); *1* OF := overflow32()
instruction CALL_rm32 (rm32) := jump rm32; *32* m32[(r[4] - 4:32)] := %next; *32* r[4] := (r[4] - 4:32)
instruction JMP_rm32 (rm32) := jump rm32
instruction PUSH_rm32 (rm32) := *32* m32[(r[4] - 4:32)] := rm32; *32* r[4] := (r[4] - 4:32)

# 0F: Jcc, SETcc, IMUL, MOVZX, MOVSX.
instruction Jcc_rel32 (cond, rel32) := cond => jump (%next + rel32)
instruction SETcc_rm8 (cond, rm8) := *8* rm8 := zx(8, cond)
instruction IMUL_r32_rm32 (reg, rm32) := *64* z := (sx(64, r[reg]) * sx(64, rm32)); *32* r[reg] := bits(z, 0, 31); *1* CF := cut32();
  *1* OF := CF
instruction MOVZX_r32_rm8 (reg, rm8) := *32* r[reg] := zx(32, rm8)
instruction MOVZX_r32_rm16 (reg, rm16) := *32* r[reg] := zx(32, rm16)
instruction MOVSX_r32_rm8 (reg, rm8) := *32* r[reg] := sx(32, rm8)
instruction MOVSX_r32_rm16 (reg, rm16) := *32* r[reg] := sx(32, rm16)

# 66: operands of 16 bits.
instruction ADD_rm16_r16 (rm16, reg) := *64* x := zx(64, rm16); *64* y := zx(64, r16[reg]); *64* z := (x + y);
  *16* rm16 := bits(z, 0, 15); *1* CF := carry16(); *1* PF := even(); *1* ZF := zero16(); *1* SF := sign16(); *1* OF := overflow16()
instruction ADD_r16_rm16 (reg, rm16) := *64* x := zx(64, r16[reg]); *64* y := zx(64, rm16); *64* z := (x + y);
  *16* r16[reg] := bits(z, 0, 15); *1* CF := carry16(); *1* PF := even(); *1* ZF := zero16(); *1* SF := sign16();
  *1* OF := overflow16()
instruction OR_rm16_r16 (rm16, reg) := *64* z := zx(64, (rm16 | r16[reg]));
  *16* rm16 := bits(z, 0, 15); *1* CF := 0:1; *1* PF := even(); *1* ZF := zero16(); *1* SF := sign16(); *1* OF := 0:1
instruction OR_r16_rm16 (reg, rm16) := *64* z := zx(64, (r16[reg] | rm16));
  *16* r16[reg] := bits(z, 0, 15); *1* CF := 0:1; *1* PF := even(); *1* ZF := zero16(); *1* SF := sign16(); *1* OF := 0:1
instruction ADC_rm16_r16 (rm16, reg) := *64* x := zx(64, rm16); *64* y := zx(64, r16[reg]); *64* z := ((x + y) + zx(64, CF));
  *16* rm16 := bits(z, 0, 15); *1* CF := carry16(); *1* PF := even(); *1* ZF := zero16(); *1* SF := sign16(); *1* OF := overflow16()
instruction ADC_r16_rm16 (reg, rm16) := *64* x := zx(64, r16[reg]); *64* y := zx(64, rm16); *64* z := ((x + y) + zx(64, CF));
  *16* r16[reg] := bits(z, 0, 15); *1* CF := carry16(); *1* PF := even(); *1* ZF := zero16(); *1* SF := sign16();
  *1* OF := overflow16()
instruction SBB_rm16_r16 (rm16, reg) := *64* x := zx(64, rm16); *64* y := zx(64, r16[reg]); *64* z := ((x - y) - zx(64, CF));
  *16* rm16 := bits(z, 0, 15); *1* CF := carry16(); *1* PF := even(); *1* ZF := zero16(); *1* SF := sign16(); *1* OF := overflow16()
instruction SBB_r16_rm16 (reg, rm16) := *64* x := zx(64, r16[reg]); *64* y := zx(64, rm16); *64* z := ((x - y) - zx(64, CF));
  *16* r16[reg] := bits(z, 0, 15); *1* CF := carry16(); *1* PF := even(); *1* ZF := zero16(); *1* SF := sign16();
  *1* OF := overflow16()
instruction AND_rm16_r16 (rm16, reg) := *64* z := zx(64, (rm16 & r16[reg]));
  *16* rm16 := bits(z, 0, 15); *1* CF := 0:1; *1* PF := even(); *1* ZF := zero16(); *1* SF := sign16(); *1* OF := 0:1
instruction AND_r16_rm16 (reg, rm16) := *64* z := zx(64, (r16[reg] & rm16));
  *16* r16[reg] := bits(z, 0, 15); *1* CF := 0:1; *1* PF := even(); *1* ZF := zero16(); *1* SF := sign16(); *1* OF := 0:1
instruction SUB_rm16_r16 (rm16, reg) := *64* x := zx(64, rm16); *64* y := zx(64, r16[reg]); *64* z := (x - y);
  *16* rm16 := bits(z, 0, 15); *1* CF := carry16(); *1* PF := even(); *1* ZF := zero16(); *1* SF := sign16(); *1* OF := overflow16()
instruction SUB_r16_rm16 (reg, rm16) := *64* x := zx(64, r16[reg]); *64* y := zx(64, rm16); *64* z := (x - y);
  *16* r16[reg] := bits(z, 0, 15); *1* CF := carry16(); *1* PF := even(); *1* ZF := zero16(); *1* SF := sign16();
  *1* OF := overflow16()
instruction XOR_rm16_r16 (rm16, reg) := *64* z := zx(64, (rm16 ^ r16[reg]));
  *16* rm16 := bits(z, 0, 15); *1* CF := 0:1; *1* PF := even(); *1* ZF := zero16(); *1* SF := sign16(); *1* OF := 0:1
instruction XOR_r16_rm16 (reg, rm16) := *64* z := zx(64, (r16[reg] ^ rm16));
  *16* r16[reg] := bits(z, 0, 15); *1* CF := 0:1; *1* PF := even(); *1* ZF := zero16(); *1* SF := sign16(); *1* OF := 0:1
instruction CMP_rm16_r16 (rm16, reg) := *64* x := zx(64, rm16); *64* y := zx(64, r16[reg]); *64* z := (x - y);
  *1* CF := carry16(); *1* PF := even(); *1* ZF := zero16(); *1* SF := sign16(); *1* OF := overflow16()
instruction CMP_r16_rm16 (reg, rm16) := *64* x := zx(64, r16[reg]); *64* y := zx(64, rm16); *64* z := (x - y);
  *1* CF := carry16(); *1* PF := even(); *1* ZF := zero16(); *1* SF := sign16(); *1* OF := overflow16()
instruction ADD_rm16_iw (rm16, iw) := *64* x := zx(64, rm16); *64* y := zx(64, iw); *64* z := (x + y);
  *16* rm16 := bits(z, 0, 15); *1* CF := carry16(); *1* PF := even(); *1* ZF := zero16(); *1* SF := sign16(); *1* OF := overflow16()
instruction OR_rm16_iw (rm16, iw) := *64* z := zx(64, (rm16 | iw));
  *16* rm16 := bits(z, 0, 15); *1* CF := 0:1; *1* PF := even(); *1* ZF := zero16(); *1* SF := sign16(); *1* OF := 0:1
instruction ADC_rm16_iw (rm16, iw) := *64* x := zx(64, rm16); *64* y := zx(64, iw); *64* z := ((x + y) + zx(64, CF));
  *16* rm16 := bits(z, 0, 15); *1* CF := carry16(); *1* PF := even(); *1* ZF := zero16(); *1* SF := sign16(); *1* OF := overflow16()
instruction SBB_rm16_iw (rm16, iw) := *64* x := zx(64, rm16); *64* y := zx(64, iw); *64* z := ((x - y) - zx(64, CF));
  *16* rm16 := bits(z, 0, 15); *1* CF := carry16(); *1* PF := even(); *1* ZF := zero16(); *1* SF := sign16(); *1* OF := overflow16()
instruction AND_rm16_iw (rm16, iw) := *64* z := zx(64, (rm16 & iw));
  *16* rm16 := bits(z, 0, 15); *1* CF := 0:1; *1* PF := even(); *1* ZF := zero16(); *1* SF := sign16(); *1* OF := 0:1
instruction SUB_rm16_iw (rm16, iw) := *64* x := zx(64, rm16); *64* y := zx(64, iw); *64* z := (x - y);
  *16* rm16 := bits(z, 0, 15); *1* CF := carry16(); *1* PF := even(); *1* ZF := zero16(); *1* SF := sign16(); *1* OF := overflow16()
instruction XOR_rm16_iw (rm16, iw) := *64* z := zx(64, (rm16 ^ iw));
  *16* rm16 := bits(z, 0, 15); *1* CF := 0:1; *1* PF := even(); *1* ZF := zero16(); *1* SF := sign16(); *1* OF := 0:1
instruction CMP_rm16_iw (rm16, iw) := *64* x := zx(64, rm16); *64* y := zx(64, iw); *64* z := (x - y);
  *1* CF := carry16(); *1* PF := even(); *1* ZF := zero16(); *1* SF := sign16(); *1* OF := overflow16()
instruction ADD_rm16_ib (rm16, ib) := *64* x := zx(64, rm16); *64* y := zx(64, sx(16, ib)); *64* z := (x + y);
  *16* rm16 := bits(z, 0, 15); *1* CF := carry16(); *1* PF := even(); *1* ZF := zero16(); *1* SF := sign16(); *1* OF := overflow16()
instruction OR_rm16_ib (rm16, ib) := *64* z := zx(64, (rm16 | sx(16, ib)));
  *16* rm16 := bits(z, 0, 15); *1* CF := 0:1; *1* PF := even(); *1* ZF := zero16(); *1* SF := sign16(); *1* OF := 0:1
instruction ADC_rm16_ib (rm16, ib) := *64* x := zx(64, rm16); *64* y := zx(64, sx(16, ib)); *64* z := ((x + y) + zx(64, CF));
  *16* rm16 := bits(z, 0, 15); *1* CF := carry16(); *1* PF := even(); *1* ZF := zero16(); *1* SF := sign16(); *1* OF := overflow16()
instruction SBB_rm16_ib (rm16, ib) := *64* x := zx(64, rm16); *64* y := zx(64, sx(16, ib)); *64* z := ((x - y) - zx(64, CF));
  *16* rm16 := bits(z, 0, 15); *1* CF := carry16(); *1* PF := even(); *1* ZF := zero16(); *1* SF := sign16(); *1* OF := overflow16()
instruction AND_rm16_ib (rm16, ib) := *64* z := zx(64, (rm16 & sx(16, ib)));
  *16* rm16 := bits(z, 0, 15); *1* CF := 0:1; *1* PF := even(); *1* ZF := zero16(); *1* SF := sign16(); *1* OF := 0:1
instruction SUB_rm16_ib (rm16, ib) := *64* x := zx(64, rm16); *64* y := zx(64, sx(16, ib)); *64* z := (x - y);
  *16* rm16 := bits(z, 0, 15); *1* CF := carry16(); *1* PF := even(); *1* ZF := zero16(); *1* SF := sign16(); *1* OF := overflow16()
instruction XOR_rm16_ib (rm16, ib) := *64* z := zx(64, (rm16 ^ sx(16, ib)));
  *16* rm16 := bits(z, 0, 15); *1* CF := 0:1; *1* PF := even(); *1* ZF := zero16(); *1* SF := sign16(); *1* OF := 0:1
instruction CMP_rm16_ib (rm16, ib) := *64* x := zx(64, rm16); *64* y := zx(64, sx(16, ib)); *64* z := (x - y);
  *1* CF := carry16(); *1* PF := even(); *1* ZF := zero16(); *1* SF := sign16(); *1* OF := overflow16()
instruction TEST_rm16_r16 (rm16, reg) := *64* z := zx(64, (rm16 & r16[reg]));
  *1* CF := 0:1; *1* PF := even(); *1* ZF := zero16(); *1* SF := sign16(); *1* OF := 0:1
instruction MOV_rm16_r16 (rm16, reg) := *16* rm16 := r16[reg]
instruction MOV_r16_rm16 (reg, rm16) := *16* r16[reg] := rm16
instruction MOVSW () := *16* m16[r[7]] := m16[r[6]]; *32* r[6] := (r[6] + step(2:32)); *32* r[7] := (r[7] + step(2:32))
instruction STOSW () := *16* m16[r[7]] := r16[0]; *32* r[7] := (r[7] + step(2:32))
instruction MOV_r16_iw (plus, iw) := *16* r16[plus] := iw
instruction MOV_rm16_iw (rm16, iw) := *16* rm16 := iw
instruction INC_rm16 (rm16) := *64* x := zx(64, rm16); *64* y := 1:64; *64* z := (x + y);
  *16* rm16 := bits(z, 0, 15); *1* PF := even(); *1* ZF := zero16(); *1* SF := sign16(); *1* OF := overflow16()
instruction DEC_rm16 (rm16) := *64* x := zx(64, rm16); *64* y := 1:64; *64* z := (x - y);
  *16* rm16 := bits(z, 0, 15); *1* PF := even(); *1* ZF := zero16(); *1* SF := sign16(); *1* OF := overflow16()

# F3: MOVS and STOS, ECX times.
# One turn a step: while ECX is not 0, it comes back to itself.
function again() := (r[1] != 0:32)
instruction REP_MOVSB () := again() => jump %pc; again() => *8* m8[r[7]] := m8[r[6]];
  again() => *32* r[6] := (r[6] + step(1:32)); again() => *32* r[7] := (r[7] + step(1:32)); again() => *32* r[1] := (r[1] - 1:32)
instruction REP_MOVSD () := again() => jump %pc; again() => *32* m32[r[7]] := m32[r[6]];
  again() => *32* r[6] := (r[6] + step(4:32)); again() => *32* r[7] := (r[7] + step(4:32)); again() => *32* r[1] := (r[1] - 1:32)
instruction REP_STOSB () := again() => jump %pc; again() => *8* m8[r[7]] := r8[0];
  again() => *32* r[7] := (r[7] + step(1:32)); again() => *32* r[1] := (r[1] - 1:32)
instruction REP_STOSD () := again() => jump %pc; again() => *32* m32[r[7]] := r[0];
  again() => *32* r[7] := (r[7] + step(4:32)); again() => *32* r[1] := (r[1] - 1:32)
"#;
