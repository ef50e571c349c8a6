//! The text that `--help` prints after the options of a command.

// After the list of commands.
pub(crate) const PROGRAM: &str = "\
`scribmon COMMAND --help` shows the lines that a command reads and an example.
A FILE may be - for standard input.

Exit status:
  0  the command did what it was to do; replies of watch and run that are
     refusals or offences count as done
  1  check, list, project, machine, explain, next or show printed a refusal;
     why had another word; a read or write failed; memory ran out (a line on
     standard error names the cause)
  2  the command line was refused
  141  the reader of the output has gone\n";

// After the options of `check`.
pub(crate) const CHECK: &str = "\
Prints for each file what the put changed or why it was refused:
  put demo: +demo.Hello
  refused Unmergeable C demo 2:1
A name is new (+), changed (~) or gone (-). A refusal names kind and place,
as line:column of the text.

Example:
  scribmon check examples/02_two_buyer/two_buyer.scr

Exit status:
  0  all modules were accepted
  1  one was refused; a file could not be read; memory ran out
  2  the command line was refused\n";

// After the options of `list`.
pub(crate) const LIST: &str = "\
Prints a line for each protocol, in the order of the text: its full name, and
its roles as they are declared. Of a text that is no module it prints why:
  orders.Order Client Orders Payment Stock
  refused EndOfText
With --json:
  {\"protocol\":\"orders.Order\",\"roles\":[\"Client\",\"Orders\"]}
  {\"refused\":\"EndOfText\"}
Only the text is read: `scribmon check` looks for all other faults.

Example:
  scribmon list examples/02_two_buyer/two_buyer.scr

Exit status:
  0  all texts are modules
  1  one is no module; a file could not be read; memory ran out
  2  the command line was refused\n";

// After the options of `project`.
pub(crate) const PROJECT: &str = "\
Prints one line, the local type of the role:
  A!m(T)       sends m(T) to A, and then what follows the dot
  A?m(T)       receives m(T) from A
  {..,..}      one of these
  rec X.T, X   a loop, and its repetition
  end          the end

Example:
  scribmon project two_buyer.TwoBuyer Seller \\
    examples/02_two_buyer/two_buyer.scr

Exit status:
  0  the local type was printed
  1  a refusal was printed; a file could not be read; memory ran out
  2  the command line was refused\n";

// After the options of `machine`.
pub(crate) const MACHINE: &str = "\
Prints a graph: states by numbers, an arrow into the start, double circles for
ends, and on each edge the action that leads to the next state.

Example:
  scribmon machine two_buyer.TwoBuyer Second \\
    examples/02_two_buyer/two_buyer.scr | dot -Tsvg -o second.svg

Exit status:
  0  the machine was printed
  1  a refusal was printed; a file could not be read; memory ran out
  2  the command line was refused\n";

// After the options of `watch`.
pub(crate) const WATCH: &str = "\
Lines of a script:
  put                      puts the module text of the lines that follow, up to
                           a line %%
  withdraw MODULE          takes a module out of the library
  profile plain|reception  chooses which branches merge
  open ID PROTOCOL         opens a conversation, as in: open 1 demo.Hello
  join ID ROLE             ROLE joined
  send ID FROM TO MESSAGE  FROM sent, as in: send 1 A B hello()
  recv ID FROM TO MESSAGE  TO received what FROM sent
  ask ID                   prints the verdict
  turn ID                  judges up to 256 more events of a stale conversation
  sweep                    makes the turns of every stale conversation
  close ID                 takes a conversation out, and prints `complete` where
                           it has ended, else the verdict
  json LINE                one of these lines, its reply as one JSON object
  # ..                     a comment
Each line is answered before the next one is read. With --hold an event is
answered once it is released, and standard error has the counts at the end:
  scribmon: 5400 events, 812 waited, at most 31 at once, 0 released by the limit
With --report only this is printed of events, openings and turns: an offence,
once, with its reason, its end after an edit, and a line that was refused:
  offence in conversation 1 at event 3, line 14: recv A B hello(): NotSent; B
  waits for A?hello()
  no offence any more in conversation 1, line 90: permitted
  refused in line 12, conversation 9: NoConversation
Standard error has what the script came to at its end.
`scribmon show --help` has the reasons.
With --close-complete the reply to an event or a turn by which a conversation
is complete is followed by that to a close of it.
With --names each ID is a word of letters, digits and `_ . : -`, as in:
  open order-8f3a demo.Hello
With --tags a line may begin with a tag, and its reply then does:
  @17 ask 1
With --input json each line is one JSON object, as in:
  {\"do\":\"send\",\"from\":\"A\",\"id\":1,\"message\":\"hello()\",\"to\":\"B\"}
  {\"do\":\"put\",\"text\":\"module demo; ..\"}
These three go together, and with --report, --hold or --close-complete.
With --sweep stale conversations are judged in front of each line, by at most 64
turns, and standard error has how many they were.
With --json --lines each object has the number of the line that it answers.

Examples:
  scribmon watch examples/01_hello/receive_before_send.script
  scribmon watch --report examples/01_hello/receive_before_send.script

Exit status:
  0  the script was read to its end; refusals and offences are replies
  1  a read or write failed; memory ran out
  2  the command line was refused
  3  with --fail: there was an offence or a refusal, or a conversation is stale\n";

// After the options of `hold`.
pub(crate) const HOLD: &str = "\
Prints the script that `scribmon watch --hold N` carries out, for any program
that reads scripts. Events wait for the opening of their conversation, and a
reception waits until its message was sent. Each role's events stay in their
order. An event that has waited while N lines were read is printed as it is.
All other lines are printed at once, but for comments, which are left out, and
for a close, which waits while an event of its conversation waits.
Standard error has the counts at the end:
  scribmon: 5400 events, 812 waited, at most 31 at once, 0 released by the limit
The lines of a script are those of `scribmon watch --help`.

Example:
  scribmon hold examples/12_skewed_clocks/skewed.script | scribmon watch

Exit status:
  0  the script was read to its end
  1  a read or write failed; memory ran out
  2  the command line was refused\n";

// After the options of `explain`.
pub(crate) const EXPLAIN: &str = "\
Prints a line for each message in flight, by sender and then receiver in the
order in which the roles are declared, the oldest first:
  A B hello()
The lines of a script are those of `scribmon watch --help`, and --names, --tags
and --input mean what they mean there.

Example:
  examples/put.sh examples/01_hello/hello.scr \\
    examples/09_in_flight/in_flight.script | scribmon explain 1

Exit status:
  0  the messages in flight were printed
  1  a refusal was printed; a read or write failed; memory ran out
  2  the command line was refused\n";

// After the options of `next`.
pub(crate) const NEXT: &str = "\
Prints a line for each role, in the order in which the roles are declared:
  A: may B!hello(), B!x()    A may send each of these to B
  B: may A?ok()              B may receive this, the oldest that A sent to it
  B: waits for A?ok(), A?quit()
                             B needs one of these, and A has sent none
  C: done                    C is at its end
  D: may join                D has not joined
  D: may join, done          D has not joined, and never acts
Behind them comes a line `complete` where the conversation has ended: each
role is done or never acts, and nothing is in flight.
The lines of a script are those of `scribmon watch --help`, and --names, --tags
and --input mean what they mean there.

Example:
  examples/put.sh examples/01_hello/hello.scr \\
    examples/09_in_flight/in_flight.script | scribmon next 1

Exit status:
  0  the roles were printed
  1  a refusal was printed; a read or write failed; memory ran out
  2  the command line was refused\n";

// After the options of `show`.
pub(crate) const SHOW: &str = "\
Prints how the log is judged, the last ten events with their lines, the messages
in flight, and a line for each role as `scribmon next` prints it:
  demo.Hello, 4 events: offence at event 3 by B: NotSent
  events 1 to 3:
    line 5  join A
    line 6  join B
    line 7  recv A B hello()    <- offence
  A: may B!hello()
  B: waits for A?hello()
After an offence the last ten events end with it, and flights and roles are
those before it. The reason of an offence is one of these:
  NotDeclared  the protocol has no such role
  JoinedTwice  the role joined before
  NotJoined    the role has not joined
  Done         the role is at its end
  NotAllowed   the role may act, but not like this
  NotSent      the message was not sent
  OtherFirst   another message from the same role comes first
With --chart it prints a sequence diagram, as Mermaid draws it.
The lines of a script are those of `scribmon watch --help`.

Example:
  scribmon show 1 examples/01_hello/receive_before_send.script

Exit status:
  0  the conversation was shown
  1  a refusal was printed; a read or write failed; memory ran out
  2  the command line was refused\n";

// After the options of `run`.
pub(crate) const RUN: &str = "\
SETUP puts the modules and opens the conversations; the CONNECTION scripts then
report their events. The lines of a script are those of `scribmon watch --help`,
but for `close`.
Prints the replies of SETUP, those of each connection behind a line with its
number, and a table: id, events, verdict, protocol.

Example:
  scribmon run setup.script buyers.script stream.script

Exit status:
  0  all scripts were carried out; a connection that could not be read to its
     end has `read fault` as its last line
  1  a file could not be opened; SETUP could not be read; a write failed; memory
     ran out
  2  the command line was refused\n";

// After the options of `why`.
pub(crate) const WHY: &str = "\
Prints when a refusal comes, the smallest example that gives it, what is printed
of it, and its cure. A KIND is the word behind `refused`, or the reason of an
offence. Without one, and with another word, it prints all of them.

Example:
  scribmon why Unmergeable

Exit status:
  0  the kind or the list was printed
  1  the word is no kind; the write failed; memory ran out
  2  the command line was refused\n";
