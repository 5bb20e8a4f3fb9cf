// What is told of the program itself.
ghost use Rattle.std.specs.Prelude.{◌≡◌};
ghost use Rattle.life_job.specs.Texts as spec;

const HELP: &str = "\
lifecheck checks the lifetimes of the pointers in a file of C++, and runs what it accepts.

usage: lifecheck COMMAND FILE [OPTIONS]

commands:
  check FILE       write the report on FILE
  run FILE         check FILE, and run it if nothing is diagnosed
  psets FILE       write what each pointer of FILE may point to, at each point
  gen NUMBER SIZE  make the file with this number, 0 to 18446744073709551615, of SIZE functions, 0 to 200, check it and run it

options, in any order:
  --entry NAME     the function with which a run begins; default main
  --input FILE     the file with the numbers that a run takes in; default none, an empty input
  --growth POLICY  how a vector grows: always, or double; default always
  --steps N        the most steps of a run, 0 to 1000000000; default 1000000
  --cells N        the most words that live at once in a run, 0 to 10000000; default 1000000
  --depth N        the most calls that stand at once in a run, 1 to 10000; default 1000
  --unchecked      run also what is diagnosed; default off
  --json           write the report of a check as JSON; default off
  --help           write this text
  --version        write the version

statuses:
  0 accepted or done, 1 diagnosed, 2 syntax, 3 ill-formed, 4 limit, 5 trap, 6 fault, 7 out of steps,
  64 usage, 65 input, 66 no such file, 71 no memory, 74 a read or a write failed

example:
  lifecheck run program.cpp --input numbers.txt --steps 5000
";

/// The text of `--help`.
pub fn help_text() -> &'static str
    ensures { result.now ≡ spec.help_text }
{
    HELP
}

/// The text of `--version`.
pub fn version_text() -> &'static str
    ensures { result.now ≡ spec.version_text }
{
    "lifecheck 0.1.0\n"
}
