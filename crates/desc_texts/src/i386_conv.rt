//! The text of i386.conv.

/// The bytes of i386.conv, as the file of that name has them.
pub const I386_CONV: &[u8] =
    br#"# The 80386: where its programs live, and how they call services (System V ABI, Intel386 supplement; interrupt 0x80).
elf 3
call CALL_rel32
call CALL_rm32
return RET

# ESP starts below the top of the stack; the words of a program's arguments begin there.
stack r[4] 0xBF000000 0x00800000 65536
args 0
heap 0x20000000 0x01000000

# Interrupt 0x80: the number in EAX, the arguments in EBX, ECX, EDX, the result in EAX; an error is a negative result.
service r[0] args r[3] r[1] r[2] result r[0] error negative
exit 1
read 3
write 4
brk 45
errors fault 14 descriptor 9 unknown 38
"#;
