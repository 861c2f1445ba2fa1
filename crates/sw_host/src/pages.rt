//! The pages on the program itself.

ghost use Rattle.std.specs.Prelude.{◌≡◌, IfOk};
ghost use Rattle.sw_host.specs.Texts.{help_text, version_text};

use crate::report::Report;
use crate::statuses::Status;
use std::alloc::Global;
use sw_data::{NoMemory, Text};

// How the program is called.
const HELP: &str =
    "swhost replays recorded pages and scripted workers against the algorithms of W3C Service Workers,
and prints what each event answers. Registrations and caches are kept in three files.

Commands:
  swhost init              formats the disk
  swhost replay [N]        runs the recording on standard input by N workers, 1 to 16 (1 where N is
                           left out), and prints the transcript
  swhost watch N           does the same by N workers while one thread more answers the look-ups
                           among its lines, and prints what each of them found
  swhost quota BYTES       replays by one worker, and forgets keys, the least recently used first,
                           while what is kept takes more than BYTES, 0 to 4294967295
  swhost show              prints the registrations and caches that the disk keeps
  swhost gen NUMBER SIZE   runs a generated recording on a disk in memory, and prints its counts;
                           NUMBER is 0 to 4294967295, SIZE 1 to 4096
  swhost imports           checks scripts and what they import, as the lines on standard input say
  swhost roster            plays the lines of one lane on standard input, and what is asked of its
                           clients in the order of focus
  swhost audit             reads a recording, a line %%, and a transcript, and says whether a host
                           that has kept what the disk keeps may print it, whatever its workers
  swhost --help            prints this page
  swhost --version         prints the name and the version

The disk is the files swhost.root, swhost.left and swhost.right of the current folder, made where
they are missing. A second replay goes on from what they keep.

A recording is lines of JSON: what the network answers, and what each lane of pages does, in order.

Statuses. What is printed goes to standard output, a refusal too.
   0  done                                7  the disk is not formatted
   1  there was no memory                 8  the disk's journal is bad
   2  the words are no command            9  a lane has actions left, but nothing may happen
   3  a line of the recording is bad     10  a limit is passed
   4  reading failed                     11  the disk has no room
   5  writing failed                     12  init: the disk is formatted already
   6  the disk failed                    13  a worker has made 2^40 turns, or
                                             roster or quota 2^32 entries
                                         15  audit: no such transcript
                                         16  audit: no line %% in the source

Example:
  $ cat first.jsonl
  {\"lane\":0,\"do\":\"cacheOpen\",\"at\":\"https://a.test/\",\"name\":\"v\"}
  {\"lane\":0,\"do\":\"match\",\"at\":\"https://a.test/\",\"request\":\"/x\"}
  $ swhost init
  formatted
  $ swhost replay < first.jsonl
  - restarted -> 0 registrations 0 caches
  L0.0 cacheOpen -> made
  L0.1 match -> none
  end done
  $ swhost show
  registrations 0
  caches 1
  cache \"https://a.test\" \"v\" 0
";

// A page that is printed.
fn page(alloc: Global, text: &str) -> Result<Report, NoMemory>
    ensures { IfOk result (λ report. report
        ≡ record { status = Status.Done; text = text.now }) }
{
    Ok(Report {
        status: Status::Done,
        text: Text::of(alloc, text)?,
    })
}

// How the program is called.
pub(crate) fn help(alloc: Global) -> Result<Report, NoMemory>
    ensures { IfOk result (λ report. report
        ≡ record { status = Status.Done; text = help_text }) }
{
    page(alloc, HELP)
}

// The program's name and version.
pub(crate) fn version(alloc: Global) -> Result<Report, NoMemory>
    ensures { IfOk result (λ report. report
        ≡ record { status = Status.Done; text = version_text }) }
{
    page(alloc, "swhost 1.0.0\n")
}
