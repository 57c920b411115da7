// What `--help` prints: one screen of 24 lines.

pub const HELP: &str = "\
margins [LIMITS]  reads lines, each a call, and answers each with a line.

post SLOT KIND VALUE      posts a value to a slot, 0 to 7; tabs part the fields
clear                     makes the rule open and empty
add put KIND VALUE        adds a step: puts a literal
add slot SLOT             loads a slot
add local LOCAL           loads a local, 0 to 7
add keep LOCAL            keeps the top in a local
add op OPERATOR           applies an operator to the two on top
add set ASSIGNMENT LOCAL  assigns the top to a local
check, run                passes the rule if it fits, and runs it

LIMITS is a file of lines KIND VALUE: slots from 8 on, which take no posting.
Values by kind: unit (empty), bool (true), int (25), float (16 hexadecimal
digits), char, str and blob (two digits a byte), excl and incl (0,10).
Operators: + - * / % ** << >> & | ^ == != < <= > >= .. ..=
Assignments: the first eleven with = behind.
Answers: ok, the KIND and VALUE of a run, or no, a number and a place:
 1 unknown name       6 overflow           11 no such line    22 rule is passed
 2 bad value or slot  7 divisor is zero    12 stack           23 rule is open
 3 absent slot        8 remainder          20 slot is sealed  24 rule is outdated
 4 text too long      9 negative exponent  21 rule is full    25 no room for text
 5 no such operator  10 over a limit
";
