// Expressions, a line for each, with their shapes.

/// Constants and names.
pub const LEAVES: &str = "a => a
0x1F => 31
010 => 8
4294967295u => 4294967295
'\\n' => 10
'\\377' => -1";

/// The binary operators and the conditional one, from the tightest to the loosest.
pub const LEVELS: &str = "a + b * c => (a + (b * c))
a * b + c => ((a * b) + c)
a % b * c => ((a % b) * c)
a / b / c => ((a / b) / c)
a - b - c => ((a - b) - c)
a - b + c => ((a - b) + c)
a + b << c => ((a + b) << c)
a << b + c => (a << (b + c))
a >> b << c => ((a >> b) << c)
a << b < c => ((a << b) < c)
a < b << c => (a < (b << c))
a > b >= c => ((a > b) >= c)
a < b == c => ((a < b) == c)
a == b < c => (a == (b < c))
a <= b != c => ((a <= b) != c)
a == b != c => ((a == b) != c)
a == b & c => ((a == b) & c)
a & b == c => (a & (b == c))
a & b ^ c => ((a & b) ^ c)
a ^ b & c => (a ^ (b & c))
a ^ b | c => ((a ^ b) | c)
a | b ^ c => (a | (b ^ c))
a | b && c => ((a | b) && c)
a && b | c => (a && (b | c))
a && b || c => ((a && b) || c)
a || b && c => (a || (b && c))
a || b ? c : a => ((a || b) ? c : a)
a ? b : c ? a : b => (a ? b : (c ? a : b))
a ? b ? c : a : b => (a ? (b ? c : a) : b)
a ? b : c + 1 => (a ? b : (c + 1))
a + 1 ? b : c => ((a + 1) ? b : c)
a + b - c * a / b % c => ((a + b) - (((c * a) / b) % c))";

/// Operators before an operand.
pub const PREFIXES: &str = "-a + b => ((-a) + b)
- - a => (-(-a))
a - -b => (a - (-b))
+a * b => ((+a) * b)
!a == b => ((!a) == b)
~a & b => ((~a) & b)
*p + a => ((*p) + a)
a * *p => (a * (*p))
a & &p => (a & (&p))
&*p => (&(*p))";

/// Suffixes.
pub const SUFFIXES: &str = "*p[a] => (*(p[a]))
&p[a] => (&(p[a]))
-p[a] => (-(p[a]))
!q->m => (!(q->m))
*q->n => (*(q->n))
x.m + a => ((x.m) + a)
q->n->m => ((q->n)->m)
q->n[a].m => (((q->n)[a]).m)
p[a][b] => ((p[a])[b])
p[a + b] => (p[(a + b)])
a[p] => (a[p])
x.t => (x.t)";

/// Parentheses, casts and sizes.
pub const CASTS: &str = "(a) => a
((a)) => a
(a + b) * c => ((a + b) * c)
a * (b + c) => (a * (b + c))
a - (b - c) => (a - (b - c))
(*p) => (*p)
(p)[a] => (p[a])
(t) a => (<i32> a)
(t) a + b => ((<i32> a) + b)
(t) (a) => (<i32> a)
(a) - b => (a - b)
(t) - a => (<i32> (-a))
(t) * p => (<i32> (*p))
(a) * b => (a * b)
(t) & a => (<i32> (&a))
(t *) p => (<*i32> p)
(struct s *) p => (<*#0> p)
(const unsigned char) a => (<u8> a)
(char *const *) p => (<**i8> p)
(unsigned) (long) a => (<u32> (<i64> a))
(t) p[a] => (<i32> (p[a]))
(void) a => (<void> a)
sizeof a => (sizeof a)
sizeof (a) => (sizeof a)
sizeof (t) => (sizeof <i32>)
sizeof (t) * a => ((sizeof <i32>) * a)
sizeof (a) + b => ((sizeof a) + b)
sizeof -a => (sizeof (-a))
sizeof (t) - a => ((sizeof <i32>) - a)
sizeof sizeof a => (sizeof (sizeof a))
sizeof (struct s) => (sizeof <#0>)
sizeof *p => (sizeof (*p))
sizeof p[a] => (sizeof (p[a]))
!sizeof (t) => (!(sizeof <i32>))
(t) sizeof a => (<i32> (sizeof a))";

/// The piece of the text at the place of the expression.
pub const SPANS: &str = "a => a
(a) + b => (a) + b
a + (b) => a + (b)
(a + b) => a + b
(( a )) => a
(t) (a) => (t) (a)
(p) [ a ] => (p) [ a ]
(x) . m => (x) . m
sizeof (a) => sizeof (a)
- (a) => - (a)
(a) ? b : (c) => (a) ? b : (c)
(a, b) => no expression";
