//! The help of scripts.

use crate::Help;

/// The help of `script`.
pub const SCRIPT: Help = Help {
    about: "Replies to requests, one per line, over a desk in memory or in a file",
    long_about: "\
Replies to requests, one per line, over a desk in memory or in a file

Reads requests from standard input, one JSON object on each line, and writes one line of JSON for
each line that is not blank, before it reads the next. It continues after refused requests. A line
of more than 8 MiB is not a request. It stops after 1,048,576 reads.

With --db FILE the desk is kept in the file, and the next script continues with it. A file that
does not exist, is empty, or is a database with no tables becomes an empty desk first. Without
--db the desk is in memory, empty at first and gone at the end.

With --explain, or if standard error is a terminal, each line that is not carried out is reported there,
with its number and the reason, and at the end how many lines were carried out and how many were not:

  line 3: no request: the key \"relase\" is not known here
  line 7: BadDocument: TooLarge, more than 4 MiB
  done: 5, refused: 1, no request: 1, failed: 0

With --stop the script ends at the first line that is not carried out. Use it if a freeze follows: a
refused attach is missing from the release, and a freeze is final.

Requests, with an example of each and its reply:

  load a catalogue of duties, as TOML
    > {\"do\":\"catalogue\",\"text\":\"forms = [\\\"binary\\\"]\"}
    < {\"revision\":1}
  import an SPDX document, as tag-value
    > {\"do\":\"import\",\"text\":\"SPDXVersion: SPDX-2.3\\n..\"}
    < {\"document\":1,\"new\":true}
  the same, for a document whose expressions may have and, or, with in small letters
    > {\"do\":\"import\",\"profile\":2,\"text\":\"SPDXVersion: SPDX-2.3\\n..\"}
    < {\"document\":2,\"new\":true}
  open a release that ships in a form of the catalogue
    > {\"do\":\"open\",\"form\":\"binary\",\"release\":\"r1\"}
    < {\"done\":true}
  attach a document to it
    > {\"do\":\"attach\",\"document\":1,\"release\":\"r1\"}
    < {\"done\":true}
  conclude a licence expression for a package, in place of the document's
    > {\"do\":\"conclude\",\"document\":1,\"expression\":\"MIT\",\"package\":\"SPDXRef-p\"}
    < {\"done\":true}
  adopt a reference of a document as a licence
    > {\"do\":\"adopt\",\"document\":1,\"licence\":\"MIT\",\"reference\":\"LicenseRef-1\"}
    < {\"done\":true}
  choose terms for a package of the document
    > {\"do\":\"choose\",\"document\":1,\"package\":\"SPDXRef-p\",\"release\":\"r1\",\"terms\":[\"MIT\"]}
    < {\"done\":true}
  freeze the release, which raises its duties
    > {\"do\":\"freeze\",\"day\":\"2025-03-03\",\"release\":\"r1\"}
    < {\"count\":1,\"first\":1}
  meet a duty
    > {\"do\":\"meet\",\"day\":\"2025-03-04\",\"duty\":1,\"text\":\"notices.txt\"}
    < {\"done\":true}
  drop the choice for a package
    > {\"do\":\"unchoose\",\"document\":1,\"package\":\"SPDXRef-p\",\"release\":\"r1\"}
    < {\"done\":true}
  waive a duty, for good or up to a last day
    > {\"do\":\"waive\",\"day\":\"2025-03-04\",\"duty\":1,\"text\":\"asked\",\"until\":\"2025-03-31\"}
    < {\"done\":true}
  reopen a duty that is met or waived
    > {\"do\":\"reopen\",\"day\":\"2025-03-06\",\"duty\":1,\"text\":\"not so\"}
    < {\"done\":true}
  end the waivers whose last day is before this day
    > {\"do\":\"close\",\"day\":\"2025-04-01\"}
    < {\"closed\":1}
  withdraw a release, with its duties that are not met
    > {\"do\":\"withdraw\",\"day\":\"2025-03-05\",\"release\":\"r1\",\"text\":\"not shipped\"}
    < {\"done\":true}
  list the duties of a release
    > {\"ask\":\"duties\",\"release\":\"r1\"}
    < {\"rows\":[[1,1,\"SPDXRef-p\",\"mit\",\"MIT\",\"include-text\",\"met\",\"2025-03-04\"]]}
  count them: raised, open, met, waived, withdrawn
    > {\"ask\":\"totals\",\"release\":\"r1\"}
    < {\"rows\":[[1,0,1,0,0]]}
  list the changes of a duty: step, day, what it was, text
    > {\"ask\":\"changes\",\"duty\":1}
    < {\"rows\":[[1,\"2025-03-03\",\"raised\",\"\"],[2,\"2025-03-04\",\"met\",\"notices.txt\"]]}
  list where a document departs from the standard: line, number and name of the kind
    > {\"ask\":\"findings\",\"document\":1}
    < {\"rows\":[[13,3,\"BadExpression\"]]}
  show a release, its form, state and revision, and its packages with conclusion and choice
    > {\"ask\":\"release\",\"release\":\"r1\"}
    < {\"rows\":[[\"r1\",\"binary\",\"frozen\",1],[1,\"SPDXRef-p\",\"p\",\"MIT\",[\"mit\"]]]}
  list the sets of terms that satisfy a package's conclusion, with no term to spare
    > {\"ask\":\"alternatives\",\"document\":1,\"package\":\"SPDXRef-p\"}
    < {\"rows\":[[\"mit\"],[\"a\",\"b\"]]}
  show the set that owes the fewest duties in a form, with their number
    > {\"ask\":\"cheapest\",\"document\":1,\"form\":\"binary\",\"package\":\"SPDXRef-p\"}
    < {\"rows\":[[1,[\"a\",\"b\"]]]}
  list all releases, each with its totals
    > {\"ask\":\"releases\"}
    < {\"rows\":[[\"r1\",\"binary\",\"frozen\",1,1,0,1,0,0]]}
  list all documents: number, namespace, profile, how many packages each ships
    > {\"ask\":\"documents\"}
    < {\"rows\":[[1,\"https://example.org/spdx/p-1\",1,1]]}
  list the open duties of all releases
    > {\"ask\":\"open\"}
    < {\"rows\":[[2,\"r2\",1,\"SPDXRef-p\",\"mit\",\"MIT\",\"include-text\",\"2025-03-05\"]]}
  list everything that prevents a freeze, as the refusals that a freeze would meet
    > {\"ask\":\"wanting\",\"release\":\"r3\"}
    < {\"rows\":[{\"at\":[1,\"SPDXRef-p\"],\"name\":\"NoChoice\",\"refused\":19}]}
  list the duties that keep a frozen release from being ready, or, with a day, from being ready on that day
    > {\"ask\":\"ready\",\"release\":\"r1\"}
    < {\"rows\":[]}
  list what is missing for the notices of a release: what, the document, and what lacks it
    > {\"ask\":\"gaps\",\"release\":\"r3\"}
    < {\"rows\":[[\"copyright\",1,\"SPDXRef-p\"]]}

A refused request changes nothing; the reply has the refusal's number, its name and the place:

    < {\"at\":[\"mit\"],\"name\":\"NotMinimal\",\"refused\":18}",
    after_help: "\
Any other file without a desk of this version is left unchanged, and one line says so:

  fault: NotADesk    it is a database of something else
  fault: BadVersion  it keeps a desk of another version
  fault: Bad..       its tables aren't sound: desk audit --help has the names

One program at a time has the file open. While it is open, or after that program was killed, recent
changes are in FILE-wal next to it: keep and copy both files together.

Examples:
  desk script <requests.jsonl
  desk script --db desk.db <requests.jsonl
  desk script --db desk.db --explain --stop <requests.jsonl >replies.jsonl

Statuses:
  0  every request was answered
  1  a line was refused, or wasn't a request; or the file keeps no such desk
  2  the command line is wrong
  3  no memory, or a file or stream failed",
};
