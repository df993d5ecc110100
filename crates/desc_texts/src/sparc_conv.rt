//! The text of sparc.conv.

/// The bytes of sparc.conv, as the file of that name has them.
pub const SPARC_CONV: &[u8] =
    br#"# SPARC V8, user level, integers: where programs live, and how they call services, procedures and return.
# After the System V Application Binary Interface, SPARC Processor Supplement.

elf 2                                               # EM_SPARC
stack r[14] 0xEF000000 0x00800000 65536             # %sp; what stands above its first value is for the words of a program
args 64                                             # behind the window save area, in which a program may save its first window
heap 0x20000000 0x01000000

service r[1] args r[8] r[9] r[10] result r[8] error C
exit 1
read 3
write 4
brk 17
errors fault 14 descriptor 9 unknown 90

link r[15]                                          # %o7
call CALL
call JMPL_call
return RET
return RETL
return RET_12
return RETL_12
pad UNIMP                                           # behind the delay instruction of a call of a function that returns a structure
"#;
