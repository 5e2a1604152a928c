pub(crate) const HELP: &str =
    "vamluyak: expands an access request for many decisions into its rows, each with its decision

  vamluyak rows REQUEST (--linked FILE | --paths FILE) (--rules FILE | --grants FILE) [--tsv]
      every decision that the request asks for, over a tree and a decision point, and the verdict
  vamluyak singles, with the same words
      the single request of each row, in hexadecimal; - for a fault row
  vamluyak work, with the same words
      makes the calls that standard input names, one to a line, and answers each by one line:
      step, show SIZE (into a buffer of so many bytes, at most 65535), rewind, verdict
  vamluyak check KIND FILE [--tsv]
      what a file holds, or why it is refused; KIND is request, linked, paths, rules or grants
  vamluyak below NAME (--linked FILE | --paths FILE) [--children] [--tsv]
      the nodes that links lead to from the node of that name, nearest first
  vamluyak decide REQUEST (--rules FILE | --grants FILE) [--tsv]
      what a decision point answers to a request that is a single one already
  vamluyak --help
  vamluyak --version

A file holds bytes. If its name ends in .hex it is text: pairs of hexadecimal digits, white space
between them, and # begins a comment that ends with the line. Of several files the tree is opened
first, then the decision point, then the request.

With --tsv, and in what work answers, each line has its fields separated by tabs:
  rows     row, reference, choice or -, node or -, decision, status, cause or 0, place
           verdict, decision; or verdict, refused, number
  work     step      row .. as above
           show      shown, length, hexadecimal digits
           rewind    rewound
           verdict   verdict, decision
           a call that is refused: refused, number, length needed or -, why
           another line: unknown, the line
  check    accepted
           refused, request or tree or point, number, layer, items around the field or -, place of the byte
  below    distance, node, name
  decide   decision, status, place

The status is 0 if all went well, and 1 if a file is refused or cannot be read, if no node has
the name, or if decide is given a request that is not a single one.
";

pub(crate) const VERSION: &str = "vamluyak 0.2.0";
