//! Certificates of the programs.

/// The certificate of `COUNT`.
pub const COUNT_CERTIFICATE: &str = "cert 1
task A
0 00000700
1 00000600
2 00000400
3 00000000
task B
4 00000000
5 00000000
";

/// The certificate of `COUNT` with masks of 16 digits.
pub const COUNT_CERTIFICATE_WIDE: &str = "cert 2
task A
0 0000000000000700
1 0000000000000600
2 0000000000000400
3 0000000000000000
task B
4 0000000000000000
5 0000000000000000
";

/// The certificate of `COUNT` without $9 in the mask of the instruction that writes it, so that rule 3 is broken.
pub const COUNT_CERTIFICATE_LACKING: &str = "cert 1
task A
0 00000700
1 00000400
2 00000400
3 00000000
task B
4 00000000
5 00000000
";

/// The certificate of `RELEASE_CREATES_MORE`.
pub const RELEASE_CERTIFICATE: &str = "cert 1
task A
0 00000300
1 00000100
2 00000100
3 00000000
4 00000000
task B
5 00000000
6 00000000
";

/// A certificate for `FIVE_FINDINGS`.
pub const FIVE_FINDINGS_CERTIFICATE: &str = "cert 1
task A
0 00000100
task B
1 00000200
task C
2 00000000
";

/// The certificate of `WRONG_PATH_SPIN`.
pub const WRONG_PATH_SPIN_CERTIFICATE: &str = "cert 1
task A
0 00000000
task B
1 00000000
task C
2 00000000
";

/// The certificate of `SPIN`.
pub const SPIN_CERTIFICATE: &str = "cert 1
task A
0 00000000
";

/// The certificate of `DIAMOND`.
pub const DIAMOND_CERTIFICATE: &str = "cert 1
task A
0 00000100
1 00000000
task B
2 00000000
task C
3 00000000
task D
4 00000200
5 00000000
6 00000000
";

/// The certificate of `PAIR`.
pub const PAIR_CERTIFICATE: &str = "cert 1
task A
0 00000100
task B
1 00000200
task C
2 00000000
";
