//! The text of sparc.ssl.

/// The bytes of sparc.ssl, as the file of that name has them.
pub const SPARC_SSL: &[u8] = br#"# SPARC V8, user level, integers: what instructions do.
# After The SPARC Architecture Manual, Version 8, appendix B, "Instruction Definitions". The groups stand in the order of appendix F,
# "Opcodes and Condition Codes", as in sparc.sled.

align yes                                           # an address is a multiple of the size that is read or written
delay 4                                             # a jump takes place behind the delay instruction

cells r[32] 32                                      # %g0 to %g7, %o0 to %o7, %l0 to %l7, %i0 to %i7
cell y 32                                           # the Y register
cell N 1                                            # the condition codes icc: negative, zero, overflow, carry
cell Z 1
cell V 1
cell C 1
cell temp 32                                        # no part of the machine: a value on its way to where it is kept
cell wide 64                                        # the same, of 64 bits

zero r[0]
windows r[8] r[16] r[24] 8

# A pair of registers has the number of its even one, halved.
view even[16] 32 is r[0], r[2], r[4], r[6], r[8], r[10], r[12], r[14],
  r[16], r[18], r[20], r[22], r[24], r[26], r[28], r[30]
view odd[16] 32 is r[1], r[3], r[5], r[7], r[9], r[11], r[13], r[15],
  r[17], r[19], r[21], r[23], r[25], r[27], r[29], r[31]

# ---- Second operands and addresses

operand immediate (simm13) := sx(32, simm13)
operand register (rs2) := r[rs2]
operand sum (rs1, reg_or_imm) := (r[rs1] + reg_or_imm)

# ---- Condition codes

function negative (result : 32) := bits(result, 31, 31)
function is_zero (result : 32) := (result = 0:32)

# A sum overflows where its sign is that of neither operand; a difference where its sign does not tell whether the first operand is
# less than the second, as signed numbers.
function add_overflows (a : 32, b : 32, result : 32) := negative(((a ^ result) & (b ^ result)))
function sub_overflows (less : 1, result : 32) := (negative(result) ^ less)

# a <! b, as one comparison in the C text: the sign bits count the other way round.
function is_less (a : 32, b : 32) := ((a ^ 0x80000000:32) < (b ^ 0x80000000:32))

# The conditions of Bicc and Ticc; of the other eight each is one of these with ~ before it.
function e () := Z
function le () := (Z | (N ^ V))
function l () := (N ^ V)
function leu () := (C | Z)
function cs () := C
function neg () := N
function vs () := V

# ---- op 0: UNIMP, Bicc, SETHI

function target (disp : 22) := (%pc + (sx(32, disp) << 2:32))

instruction UNIMP () := trap 2:32                   # illegal_instruction

instruction BN (disp22) := none
instruction BE (disp22) := e() => jump target(disp22)
instruction BLE (disp22) := le() => jump target(disp22)
instruction BL (disp22) := l() => jump target(disp22)
instruction BLEU (disp22) := leu() => jump target(disp22)
instruction BCS (disp22) := cs() => jump target(disp22)
instruction BNEG (disp22) := neg() => jump target(disp22)
instruction BVS (disp22) := vs() => jump target(disp22)
instruction BA (disp22) := jump target(disp22)
instruction BNE (disp22) := ~ e() => jump target(disp22)
instruction BG (disp22) := ~ le() => jump target(disp22)
instruction BGE (disp22) := ~ l() => jump target(disp22)
instruction BGU (disp22) := ~ leu() => jump target(disp22)
instruction BCC (disp22) := ~ cs() => jump target(disp22)
instruction BPOS (disp22) := ~ neg() => jump target(disp22)
instruction BVC (disp22) := ~ vs() => jump target(disp22)

# With the annul bit the delay instruction is annulled where a condition does not hold, and behind BN and BA always.
instruction BN_a (disp22) := annul
instruction BE_a (disp22) := e() => jump target(disp22) ; ~ e() => annul
instruction BLE_a (disp22) := le() => jump target(disp22) ; ~ le() => annul
instruction BL_a (disp22) := l() => jump target(disp22) ; ~ l() => annul
instruction BLEU_a (disp22) := leu() => jump target(disp22) ; ~ leu() => annul
instruction BCS_a (disp22) := cs() => jump target(disp22) ; ~ cs() => annul
instruction BNEG_a (disp22) := neg() => jump target(disp22) ; ~ neg() => annul
instruction BVS_a (disp22) := vs() => jump target(disp22) ; ~ vs() => annul
instruction BA_a (disp22) := jump target(disp22) ; annul
instruction BNE_a (disp22) := ~ e() => jump target(disp22) ; e() => annul
instruction BG_a (disp22) := ~ le() => jump target(disp22) ; le() => annul
instruction BGE_a (disp22) := ~ l() => jump target(disp22) ; l() => annul
instruction BGU_a (disp22) := ~ leu() => jump target(disp22) ; leu() => annul
instruction BCC_a (disp22) := ~ cs() => jump target(disp22) ; cs() => annul
instruction BPOS_a (disp22) := ~ neg() => jump target(disp22) ; neg() => annul
instruction BVC_a (disp22) := ~ vs() => jump target(disp22) ; vs() => annul

instruction SETHI (imm22, rd) := *32* r[rd] := (zx(32, imm22) << 10:32)

# ---- op 1: CALL

instruction CALL (disp30) := jump (%pc + (zx(32, disp30) << 2:32)) ; *32* r[15] := %pc

# ---- op 2: arithmetic and logic. What is set first does not change what is read after it.

# The upper half of a product goes to Y; that of a dividend comes from Y.
function product (a : 32, b : 32) := (zx(64, a) * zx(64, b))
function signed_product (a : 32, b : 32) := (sx(64, a) * sx(64, b))
function dividend (low : 32) := ((zx(64, y) << 32:64) | zx(64, low))

# A quotient overflows where 32 bits do not hold it; the result is then the greatest number, or for a negative quotient the least.
function udiv_overflows () := (bits(wide, 32, 63) != 0:32)
function udiv_result () := if(udiv_overflows(), 0xFFFFFFFF:32, bits(wide, 0, 31))
function sdiv_overflows () := (wide != sx(64, bits(wide, 0, 31)))
function sdiv_result (divisor : 32) :=
  if(sdiv_overflows(), if((negative(y) = negative(divisor)), 0x7FFFFFFF:32, 0x80000000:32), bits(wide, 0, 31))

instruction ADD (rs1, reg_or_imm, rd) := *32* r[rd] := (r[rs1] + reg_or_imm)
instruction AND (rs1, reg_or_imm, rd) := *32* r[rd] := (r[rs1] & reg_or_imm)
instruction OR (rs1, reg_or_imm, rd) := *32* r[rd] := (r[rs1] | reg_or_imm)
instruction XOR (rs1, reg_or_imm, rd) := *32* r[rd] := (r[rs1] ^ reg_or_imm)
instruction SUB (rs1, reg_or_imm, rd) := *32* r[rd] := (r[rs1] - reg_or_imm)
instruction ANDN (rs1, reg_or_imm, rd) := *32* r[rd] := (r[rs1] & ~ reg_or_imm)
instruction ORN (rs1, reg_or_imm, rd) := *32* r[rd] := (r[rs1] | ~ reg_or_imm)
instruction XNOR (rs1, reg_or_imm, rd) := *32* r[rd] := (r[rs1] ^ ~ reg_or_imm)
instruction ADDX (rs1, reg_or_imm, rd) := *32* r[rd] := ((r[rs1] + reg_or_imm) + zx(32, C))
instruction UMUL (rs1, reg_or_imm, rd) :=
  *32* y := bits(product(r[rs1], reg_or_imm), 32, 63) ; *32* r[rd] := (r[rs1] * reg_or_imm)
instruction SMUL (rs1, reg_or_imm, rd) :=
  *32* y := bits(signed_product(r[rs1], reg_or_imm), 32, 63) ; *32* r[rd] := (r[rs1] * reg_or_imm)
instruction SUBX (rs1, reg_or_imm, rd) := *32* r[rd] := ((r[rs1] - reg_or_imm) - zx(32, C))
instruction UDIV (rs1, reg_or_imm, rd) :=
  *64* wide := (dividend(r[rs1]) / zx(64, reg_or_imm)) ; *32* r[rd] := udiv_result()
instruction SDIV (rs1, reg_or_imm, rd) :=
  *64* wide := (dividend(r[rs1]) /! sx(64, reg_or_imm)) ; *32* r[rd] := sdiv_result(reg_or_imm)

instruction ADDcc (rs1, reg_or_imm, rd) :=
  *1* N := negative((r[rs1] + reg_or_imm)) ; *1* Z := is_zero((r[rs1] + reg_or_imm)) ;
  *1* V := add_overflows(r[rs1], reg_or_imm, (r[rs1] + reg_or_imm)) ; *1* C := ((r[rs1] + reg_or_imm) < r[rs1]) ;
  *32* r[rd] := (r[rs1] + reg_or_imm)
instruction ANDcc (rs1, reg_or_imm, rd) :=
  *1* N := negative((r[rs1] & reg_or_imm)) ; *1* Z := is_zero((r[rs1] & reg_or_imm)) ;
  *1* V := 0:1 ; *1* C := 0:1 ;
  *32* r[rd] := (r[rs1] & reg_or_imm)
instruction ORcc (rs1, reg_or_imm, rd) :=
  *1* N := negative((r[rs1] | reg_or_imm)) ; *1* Z := is_zero((r[rs1] | reg_or_imm)) ;
  *1* V := 0:1 ; *1* C := 0:1 ;
  *32* r[rd] := (r[rs1] | reg_or_imm)
instruction XORcc (rs1, reg_or_imm, rd) :=
  *1* N := negative((r[rs1] ^ reg_or_imm)) ; *1* Z := is_zero((r[rs1] ^ reg_or_imm)) ;
  *1* V := 0:1 ; *1* C := 0:1 ;
  *32* r[rd] := (r[rs1] ^ reg_or_imm)
instruction SUBcc (rs1, reg_or_imm, rd) :=
  *1* N := negative((r[rs1] - reg_or_imm)) ; *1* Z := is_zero((r[rs1] - reg_or_imm)) ;
  *1* V := sub_overflows(is_less(r[rs1], reg_or_imm), (r[rs1] - reg_or_imm)) ; *1* C := (r[rs1] < reg_or_imm) ;
  *32* r[rd] := (r[rs1] - reg_or_imm)
instruction ANDNcc (rs1, reg_or_imm, rd) :=
  *1* N := negative((r[rs1] & ~ reg_or_imm)) ; *1* Z := is_zero((r[rs1] & ~ reg_or_imm)) ;
  *1* V := 0:1 ; *1* C := 0:1 ;
  *32* r[rd] := (r[rs1] & ~ reg_or_imm)
instruction ORNcc (rs1, reg_or_imm, rd) :=
  *1* N := negative((r[rs1] | ~ reg_or_imm)) ; *1* Z := is_zero((r[rs1] | ~ reg_or_imm)) ;
  *1* V := 0:1 ; *1* C := 0:1 ;
  *32* r[rd] := (r[rs1] | ~ reg_or_imm)
instruction XNORcc (rs1, reg_or_imm, rd) :=
  *1* N := negative((r[rs1] ^ ~ reg_or_imm)) ; *1* Z := is_zero((r[rs1] ^ ~ reg_or_imm)) ;
  *1* V := 0:1 ; *1* C := 0:1 ;
  *32* r[rd] := (r[rs1] ^ ~ reg_or_imm)
instruction ADDXcc (rs1, reg_or_imm, rd) :=
  *32* temp := ((r[rs1] + reg_or_imm) + zx(32, C)) ;
  *1* N := negative(temp) ; *1* Z := is_zero(temp) ;
  *1* V := add_overflows(r[rs1], reg_or_imm, temp) ; *1* C := if(C, (temp <= r[rs1]), (temp < r[rs1])) ;
  *32* r[rd] := temp
instruction UMULcc (rs1, reg_or_imm, rd) :=
  *32* y := bits(product(r[rs1], reg_or_imm), 32, 63) ;
  *1* N := negative((r[rs1] * reg_or_imm)) ; *1* Z := is_zero((r[rs1] * reg_or_imm)) ;
  *1* V := 0:1 ; *1* C := 0:1 ;
  *32* r[rd] := (r[rs1] * reg_or_imm)
instruction SMULcc (rs1, reg_or_imm, rd) :=
  *32* y := bits(signed_product(r[rs1], reg_or_imm), 32, 63) ;
  *1* N := negative((r[rs1] * reg_or_imm)) ; *1* Z := is_zero((r[rs1] * reg_or_imm)) ;
  *1* V := 0:1 ; *1* C := 0:1 ;
  *32* r[rd] := (r[rs1] * reg_or_imm)
instruction SUBXcc (rs1, reg_or_imm, rd) :=
  *32* temp := ((r[rs1] - reg_or_imm) - zx(32, C)) ;
  *1* N := negative(temp) ; *1* Z := is_zero(temp) ;
  *1* V := sub_overflows(if(C, (r[rs1] <=! reg_or_imm), (r[rs1] <! reg_or_imm)), temp) ; *1* C := if(C, (r[rs1] <= reg_or_imm), (r[rs1] < reg_or_imm)) ;
  *32* r[rd] := temp
instruction UDIVcc (rs1, reg_or_imm, rd) :=
  *64* wide := (dividend(r[rs1]) / zx(64, reg_or_imm)) ;
  *1* N := negative(udiv_result()) ; *1* Z := is_zero(udiv_result()) ;
  *1* V := udiv_overflows() ; *1* C := 0:1 ;
  *32* r[rd] := udiv_result()
instruction SDIVcc (rs1, reg_or_imm, rd) :=
  *64* wide := (dividend(r[rs1]) /! sx(64, reg_or_imm)) ;
  *1* N := negative(sdiv_result(reg_or_imm)) ; *1* Z := is_zero(sdiv_result(reg_or_imm)) ;
  *1* V := sdiv_overflows() ; *1* C := 0:1 ;
  *32* r[rd] := sdiv_result(reg_or_imm)

# A step of a multiplication: N xor V goes into r[rs1] from above, the second operand is added where Y is odd, and Y takes the bit that
# falls out of r[rs1].
function shifted (bit : 1, value : 32) := ((zx(32, bit) << 31:32) | (value >> 1:32))
function multiple (value : 32) := if(bits(y, 0, 0), value, 0:32)

instruction MULScc (rs1, reg_or_imm, rd) :=
  *32* temp := shifted((N ^ V), r[rs1]) ;
  *1* N := negative((temp + multiple(reg_or_imm))) ; *1* Z := is_zero((temp + multiple(reg_or_imm))) ;
  *1* V := add_overflows(temp, multiple(reg_or_imm), (temp + multiple(reg_or_imm))) ; *1* C := ((temp + multiple(reg_or_imm)) < temp) ;
  *32* temp := (temp + multiple(reg_or_imm)) ; *32* y := shifted(bits(r[rs1], 0, 0), y) ;
  *32* r[rd] := temp

# Shifts count by the low five bits.
function count (value : 32) := (value & 31:32)

instruction SLL (rs1, reg_or_imm, rd) := *32* r[rd] := (r[rs1] << count(reg_or_imm))
instruction SRL (rs1, reg_or_imm, rd) := *32* r[rd] := (r[rs1] >> count(reg_or_imm))
instruction SRA (rs1, reg_or_imm, rd) := *32* r[rd] := (r[rs1] >>! count(reg_or_imm))

instruction RDY (rd) := *32* r[rd] := y
instruction WRY (rs1, reg_or_imm) := *32* y := (r[rs1] ^ reg_or_imm)

# ---- op 2: control

instruction RET_12 () := jump (r[31] + 12:32)
instruction RETL_12 () := jump (r[15] + 12:32)
instruction RET () := jump (r[31] + 8:32)
instruction RETL () := jump (r[15] + 8:32)
instruction JMPL_call (address) := jump address ; *32* r[15] := %pc
instruction JMPL (address, rd) := jump address ; *32* r[rd] := %pc

function number (value : 32) := (value & 127:32)    # of a trap: the low seven bits

instruction SERVICE () := service
instruction TN (address) := none
instruction TE (address) := e() => trap number(address)
instruction TLE (address) := le() => trap number(address)
instruction TL (address) := l() => trap number(address)
instruction TLEU (address) := leu() => trap number(address)
instruction TCS (address) := cs() => trap number(address)
instruction TNEG (address) := neg() => trap number(address)
instruction TVS (address) := vs() => trap number(address)
instruction TA (address) := trap number(address)
instruction TNE (address) := ~ e() => trap number(address)
instruction TG (address) := ~ le() => trap number(address)
instruction TGE (address) := ~ l() => trap number(address)
instruction TGU (address) := ~ leu() => trap number(address)
instruction TCC (address) := ~ cs() => trap number(address)
instruction TPOS (address) := ~ neg() => trap number(address)
instruction TVC (address) := ~ vs() => trap number(address)

# The sum is of the old window, its place is in the new one.
instruction SAVE (rs1, reg_or_imm, rd) := *32* temp := (r[rs1] + reg_or_imm) ; wsave ; *32* r[rd] := temp
instruction RESTORE (rs1, reg_or_imm, rd) := *32* temp := (r[rs1] + reg_or_imm) ; wrestore ; *32* r[rd] := temp

# ---- op 3: loads and stores

instruction LD (address, rd) := *32* r[rd] := m32[address]
instruction LDUB (address, rd) := *32* r[rd] := zx(32, m8[address])
instruction LDUH (address, rd) := *32* r[rd] := zx(32, m16[address])
instruction LDD (address, pair) :=
  *64* wide := m64[address] ; *32* even[pair] := bits(wide, 32, 63) ; *32* odd[pair] := bits(wide, 0, 31)
instruction ST (rd, address) := *32* m32[address] := r[rd]
instruction STB (rd, address) := *8* m8[address] := bits(r[rd], 0, 7)
instruction STH (rd, address) := *16* m16[address] := bits(r[rd], 0, 15)
instruction STD (pair, address) := *64* m64[address] := ((zx(64, even[pair]) << 32:64) | zx(64, odd[pair]))
instruction LDSB (address, rd) := *32* r[rd] := sx(32, m8[address])
instruction LDSH (address, rd) := *32* r[rd] := sx(32, m16[address])
instruction LDSTUB (address, rd) := *32* temp := zx(32, m8[address]) ; *8* m8[address] := 0xFF:8 ; *32* r[rd] := temp
instruction SWAP (address, rd) := *32* temp := m32[address] ; *32* m32[address] := r[rd] ; *32* r[rd] := temp
"#;
