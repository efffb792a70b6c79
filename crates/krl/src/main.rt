// Module 7 of document 01: reads a KRL file from standard input and writes the listing of its two lists, or a refusal, to standard output.
// `krl_program` does it, and says what is written.
#![tactic(auto)]

fn main(rt: HostRuntime) {
    krl_program::run(&rt, &mut rt.reader());
}
