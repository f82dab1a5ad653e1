// The signs: operators and punctuators (ECMA-372, 9.1.4; ISO/IEC 14882:2003, 2.12).

/// The spelling of each sign, under its number from 0.
pub const SIGNS: [&[u8]; 47] = [
    b"{", b"}", b"(", b")", b"[", b"]", b"<", b">", b";", b":", b"::", b",", b".", b"...", b"->",
    b"?", b"=", b"==", b"!=", b"<=", b">=", b"<<", b"+", b"-", b"*", b"/", b"%", b"^", b"&", b"|",
    b"~", b"!", b"++", b"--", b"+=", b"-=", b"*=", b"/=", b"%=", b"^=", b"&=", b"|=", b"<<=",
    b">>=", b"&&", b"||", b"#",
];
