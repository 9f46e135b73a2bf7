//! A script of calls, each a letter and a digit.

/// In turn: p puts a value and d drops one, h puts a history and x drops one, i drops a preimage, b gives the own account a
/// balance and c a code, a adds an account and r removes one, t pushes a transfer, y yields, q provides, k is a checkpoint and z a
/// restore. The digit says which key, hash, account or number.
pub const SCRIPT: [&str; 15] = [
    "k0 a1 r4 a2 k0 r5 z0 r5 k0 z0 a3 z0 p1 p5 k0 p9 z0 d1 k0 d5 z0 i0 k0 z0 i1",
    "z0 t1 k0 t2 z0 y1 k0 y2 z0 q1 k0 q2 z0 r1 z0 r2 k0 r3 z0 h1 x1 z0 b1 k0 b2",
    "z0 c1 k0 c2 z0 r0 h4 k0 i0 c9 y1 d9 h8 c2 a8 k8 p1 a6 a3 h9 q1 p6 p8 d0 h1",
    "x6 q6 k9 k7 y0 k4 h0 t6 q0 k3 y9 a1 d1 p3 h2 x2 r3 h9 z7 r4 r7 k7 q6 q6 a8",
    "d4 t5 p9 x9 p2 i8 d4 p0 z2 p4 h9 c1 p6 d8 r2 b1 p9 h8 h1 p9 p5 h8 x4 p1 d4",
    "p7 b5 b4 b0 h4 y0 z4 p4 p9 d5 k0 x7 q5 k0 b7 c4 d5 t1 x0 p2 t8 p2 d1 c4 p1",
    "r1 d8 p1 k0 p1 h1 k2 t9 i2 r5 d0 p4 k8 z3 h1 k6 p7 p9 x6 h2 k3 b7 y3 p7 t2",
    "c3 a2 h6 p5 k3 h5 i6 q5 p3 a7 p8 p1 d8 t4 d0 a6 y4 c0 p6 k7 x0 i6 p6 p1 a3",
    "p0 p1 p7 p9 d1 z4 p8 t7 y8 d9 h8 p4 p6 y0 k5 d1 k5 i0 p4 y8 b5 y9 p8 p9 p2",
    "x9 z5 z0 d4 d5 z4 b6 k1 q8 h5 p2 t9 p3 a4 d6 a9 c0 p9 p0 y7 h9 d0 h9 p9 q5",
    "b3 b0 x0 y6 z6 k8 p5 k6 i7 a4 b3 r0 a2 i0 t3 a9 p1 p1 d9 k5 p7 p7 x9 r4 h5",
    "h2 h2 x6 c3 h9 p4 d5 r6 k7 p4 b7 x3 p1 x0 t9 p2 p6 t0 c8 z6 d9 x1 h3 a5 d1",
    "h4 p8 k2 d9 h5 c8 p6 d7 q6 h8 d8 h5 c1 t1 h2 k5 x3 h8 i8 r7 p3 p0 r9 h8 p1",
    "d1 p0 z3 c4 h0 b0 x9 b6 d5 r8 h4 y9 p4 x2 r5 k9 x8 d6 r6 i6 p1 p3 p5 a3 h8",
    "p8 z1 p3 t7 y4 a5 p0 p8 b5 h0",
];
