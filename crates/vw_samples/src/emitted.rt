//! Emitted boards, written by hand.

/// A plan of the toggle over so many microcycles that its sequencers have too many cells.
pub const LONG_PLAN: &str =
    "plan 1 2 4 40000\nchips 1 2\nwire 0 1 1\nhop 0 1 0 0\nwire 1 2 1\nhop 1 2 0 1\nwire 2 0 1\nhop 2 0 0 0\nwire 2 1 1\nhop 2 1 0 0\nend\n";

/// The emitted board of two wires that share a pin, `AND` on one chip.
pub const EMITTED_AND: &str = ".model board\n\
.inputs x0 x1\n\
.outputs y0\n\
.subckt node0 x0=x0 x1=x1 i1_0=p1_0 o0_0=p0_0 y0=y0\n\
.subckt node1 i0_0=p0_0 o1_0=p1_0\n\
.end\n\
.model node0\n\
.inputs x0 x1 i1_0\n\
.outputs o0_0 y0\n\
.latch t3 t0 1\n\
.latch t0 t1 0\n\
.latch t1 t2 0\n\
.latch t2 t3 0\n\
.names t2 i1_0 r2_0 n2_0\n\
11- 1\n\
0-1 1\n\
.latch n2_0 r2_0 0\n\
.names t0 x0 e0_0_0\n\
11 1\n\
.names t1 x1 e0_0_0 e0_0_1\n\
11- 1\n\
--1 1\n\
.names e0_0_1 o0_0\n\
1 1\n\
.names r2_0 y0\n\
1 1\n\
.end\n\
.model node1\n\
.inputs i0_0\n\
.outputs o1_0\n\
.latch t3 t0 1\n\
.latch t0 t1 0\n\
.latch t1 t2 0\n\
.latch t2 t3 0\n\
.names r0_0 r1_0 c0\n\
11 1\n\
.names t0 i0_0 r0_0 n0_0\n\
11- 1\n\
0-1 1\n\
.latch n0_0 r0_0 0\n\
.names t1 i0_0 r1_0 n1_0\n\
11- 1\n\
0-1 1\n\
.latch n1_0 r1_0 0\n\
.names t2 c0 e1_0_0\n\
11 1\n\
.names e1_0_0 o1_0\n\
1 1\n\
.end\n";

/// That of the toggle on the triangle.
pub const EMITTED_TOGGLE: &str = ".model board\n\
.inputs x0\n\
.outputs y0 s0\n\
.subckt node0 x0=x0 i4_0=p4_0 o0_0=p0_0 y0=y0\n\
.subckt node1 i0_0=p0_0 i5_0=p5_0 o3_0=p3_0\n\
.subckt node2 i3_0=p3_0 o4_0=p4_0 o5_0=p5_0 q1=s0\n\
.end\n\
.model node0\n\
.inputs x0 i4_0\n\
.outputs o0_0 y0\n\
.latch t2 t0 1\n\
.latch t0 t1 0\n\
.latch t1 t2 0\n\
.names t0 i4_0 r2_0 n2_0\n\
11- 1\n\
0-1 1\n\
.latch n2_0 r2_0 0\n\
.names t0 x0 e0_0_0\n\
11 1\n\
.names e0_0_0 o0_0\n\
1 1\n\
.names r2_0 y0\n\
1 1\n\
.end\n\
.model node1\n\
.inputs i0_0 i5_0\n\
.outputs o3_0\n\
.latch t2 t0 1\n\
.latch t0 t1 0\n\
.latch t1 t2 0\n\
.names r0_0 r3_0 c0\n\
10 1\n\
01 1\n\
.names t0 i0_0 r0_0 n0_0\n\
11- 1\n\
0-1 1\n\
.latch n0_0 r0_0 0\n\
.names t0 i5_0 r3_0 n3_0\n\
11- 1\n\
0-1 1\n\
.latch n3_0 r3_0 0\n\
.names t1 c0 e3_0_0\n\
11 1\n\
.names e3_0_0 o3_0\n\
1 1\n\
.end\n\
.model node2\n\
.inputs i3_0\n\
.outputs o4_0 o5_0 q1\n\
.latch t2 t0 1\n\
.latch t0 t1 0\n\
.latch t1 t2 0\n\
.names t2 r1_0 q1 l1\n\
11- 1\n\
0-1 1\n\
.latch l1 q1 0\n\
.names t1 i3_0 r1_0 n1_0\n\
11- 1\n\
0-1 1\n\
.latch n1_0 r1_0 0\n\
.names t0 q1 e4_0_0\n\
11 1\n\
.names e4_0_0 o4_0\n\
1 1\n\
.names t0 q1 e5_0_0\n\
11 1\n\
.names e5_0_0 o5_0\n\
1 1\n\
.end\n";
