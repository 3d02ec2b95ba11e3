//! Programs that tests share, and what they read.

// What runs read.
pub const INPUTS: &[&[u64]] = &[
    &[],
    &[18_446_744_073_709_551_615, 63, 5],
    &[4, 7, 1, 9, 9, 2, 0, 8, 3, 6, 5, 1],
];

// Programs in which each kind of statement stands beside and inside others, and how many blocks
// their graphs have.
pub const PROGRAMS: &[(&str, usize)] = &[
    ("proc main() { }", 1),
    ("proc main() { var x; x = 1; print x; return x; }", 1),
    ("proc main() { if (0) { } }", 4),
    (
        "proc main() { if (0) { print 1; } else { print 2; } print 3; }",
        4,
    ),
    ("proc main() { while (0) { } }", 4),
    ("proc main() { while (0) { if (1) { } } }", 7),
    ("proc f() { } proc main() { f(); print 1; f(); }", 4),
    (
        "proc f() { while (0) { } } proc main() { if (1) { f(); } }",
        9,
    ),
    ("proc main() { if (0) { } else { } }", 4),
    (
        "proc main() { var x; read x; if (x) { if (x > 2) { print 1; } else { } } else { \
        print 2; } print 3; }",
        7,
    ),
    (
        "proc main() { var x; read x; while (x) { if (x & 1) { print x; } x = x >> 1; } }",
        7,
    ),
    (
        "proc main() { var i, j; while (i < 3) { while (j < i) { j = j + 1; print j; } i = i \
        + 1; } print i + j; }",
        7,
    ),
    (
        "proc main() { var i; while (i < 2) { if (i) { while (i < 5) { i = i + 3; } } i = i + \
        1; } print i; }",
        10,
    ),
    ("proc main() { while (1) { } }", 4),
    ("proc main() { var x; while (1) { read x; print x; } }", 4),
    (
        "proc main() { var x; read x; if (x) { while (1) { print x; } } }",
        7,
    ),
    ("proc f() { } proc main() { f(); f(); }", 4),
    (
        "proc f() { return 7; } proc main() { var x; x = f(); print x; }",
        3,
    ),
    (
        "proc f() { var x; x = 3; } proc main() { var x; x = 5; x = f(); print x; }",
        3,
    ),
    (
        "proc f(a, b) { return a - b; } proc main() { var x; x = f(9, 4); print x; x = f(4, \
        9); print x; }",
        4,
    ),
    (
        "proc f(x) { while (x) { print x; x = x - 1; } } proc main() { var i; while (i < 3) { \
        f(i); i = i + 1; } }",
        9,
    ),
    (
        "proc f(x) { if (x) { print x; } return x + 1; } proc g(x) { x = f(x); x = f(x); \
        return x; } proc main() { var x; if (1) { x = g(x); } else { x = g(9); } print x; }",
        13,
    ),
    (
        "proc f(x) { var i; while (i < x) { i = i + 2; } return i; } proc main() { var a, n; \
        read n; while (n) { a = f(n); print a; n = n - 1; } }",
        9,
    ),
    (
        "proc p(a, b, c, d, e, f, g, h) { print a; print h; return b * c + d * e + f * g; } \
        proc main() { var x; x = p(1, 2, 3, 4, 5, 6, 7, 8); print x; }",
        3,
    ),
    (
        "array a[4]; proc main() { var i; while (i < 4) { a[i] = i * i; i = i + 1; } print a[3]; }",
        4,
    ),
    (
        "array a[4]; proc main() { a[a[0] + 1] = a[1] + 2; a[a[1]] = a[a[1]] + 5; print a[2]; \
        print a[a[1]]; }",
        1,
    ),
    (
        "array a[3]; array b[3]; proc f(i) { b[i] = a[i] + i; return b[i - 1]; } proc main() \
        { var x; a[1] = 40; x = f(1); print x; x = f(2); print x; print b[1]; }",
        4,
    ),
    (
        "array a[3]; proc f() { a[0] = a[0] + 1; return a[0]; } proc main() { var x; x = f(); \
        if (a[0] == x) { a[a[0]] = x; } while (a[1] < 4) { a[1] = a[1] + 1; } print a[1]; }",
        9,
    ),
    (
        "array e[0]; array a[1]; proc main() { a[0] = a[0] + 1; print a[0]; }",
        1,
    ),
    (
        "proc main() { var x, y; give 2, x; give 2, y; take 7, x + y; take 1, x; give 1, x; \
        print x; give 2, y; print y; }",
        1,
    ),
    (
        "proc main() { var x; give 3, x; while (x) { take 4, x * x; give 3, x; } }",
        4,
    ),
    (
        "proc f(x) { take 5, x; give 2, x; return x; } proc main() { var x; x = f(3); if (x) \
        { take 6, x; x = f(x); } print x; }",
        7,
    ),
    (
        "proc main() { var x, y; read x; read y; print x / y; print x % y; print x << y; \
        print x >> y; print ~x; print !x; print -x; print x - y; }",
        1,
    ),
    (
        "proc main() { var x, y; read x; read y; if (x < y) { print 1; } if (x <= y) { print \
        2; } if (x == y) { print 3; } if (x != y) { print 4; } if (x >= y) { print 5; } }",
        16,
    ),
    (
        "proc main() { var a, b, c; a = 1; b = a + a; c = b * b + a; a = c - b; print a; \
        print b; print c; return c; }",
        1,
    ),
    (
        "proc f(x) { return x; } proc main() { var x, i; while (i < 4) { if (i == 2) { x = \
        f(i); } else { f(i); } i = i + 1; } print x; return x + 1; }",
        10,
    ),
    (
        "proc main() { var x; if (1) { if (1) { if (1) { if (1) { x = 1; } } } } if (x) { if \
        (0) { } else { if (x) { print x; } } } }",
        22,
    ),
    (
        "proc u() { print 9; } proc f(x) { return x + x; } proc main() { var x; x = f(1); x = \
        f(x); x = f(x); print x; }",
        6,
    ),
];
