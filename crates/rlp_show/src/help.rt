//! What the program prints for `--help`, for `--version`, and for arguments that it doesn't know.

/// What the program prints for `--version`.
pub const VERSION: &str = "rlp_show 0.6.1\n";

/// What the program prints for arguments that it doesn't know.
pub const USAGE: &str =
    "usage: rlp_show [--json | --bytes] [KIND] [RECORD]\nrlp_show --help says more.\n";

/// The exit status of the program for arguments that it doesn't know.
pub const UNKNOWN_ARGUMENTS: u8 = 4;

/// What the program prints for `--help`.
pub const HELP: &str = "\
rlp_show shows records of Ethereum by the names of their fields.

usage: rlp_show [--json | --bytes] [KIND] [RECORD]

RECORD is the whole encoding in hexadecimal digits after 0x, or the text of a node
record, which begins with enr:. Without RECORD, each line of standard input is a
record, where 0x may be left out.

With --json an answer is one JSON object in one line. Its only key is the kind, as
accessList for access_list. Records have the names and values that Ethereum's
execution API gives them: numbers are in hexadecimal, and the fields of a header
stand in its block. Only signingHash and whole ommers aren't in the execution API.
Fields of messages have names of the same form.

With --bytes each line also has the place of the field, counted from 0, the bytes of
its header and those of its payload. There is a line for each header of a list that
has items, and a dash for what isn't there.

KIND is one of
  transaction                     with or without a type, signed or not
  receipt                         with or without a type
  access_list, authorization      parts of transactions
  block, body, header, withdrawal
  account, node                   of the trie of the state, and of any trie
  record                          a node record of EIP-778
or the body of a message:
  hello, disconnect, ping, pong   of p2p
  status68, status69, new_block_hashes, transactions, get_block_headers,
  block_headers, get_block_bodies, block_bodies, new_block,
  new_pooled_transaction_hashes, get_pooled_transactions, pooled_transactions,
  get_receipts, receipts68, receipts69, block_range_update
                                  of eth/68 and eth/69

Without KIND the kind is guessed, and the names of the fields begin with its name:
  first byte below 0x80  transaction, or receipt if the list after it has 4 items
  0x80                   node: the empty trie
  list of no items       access_list
  list whose first item is a list, which is called the inner list here:
    access_list          if the first item of the inner list has 20 bytes; else
    block                if that item has 32 bytes, and the outer list 3 or 4 items
    body                 if the outer list has 2 or 3 items
    node                 if the outer list has 17 items
  other list, by its number of items:
    2                    node
    4                    by the third item: account (of 32 bytes), withdrawal (of 20),
                         receipt (of more than 55, or a list), else record
    6                    authorization if the second item has 20 bytes, else record
    9                    transaction
    15 to 23             header if the third item has 20 bytes, else node (17), record
    8 and all even ones  record
Where two kinds fit, the commoner one is taken.

An answer is a line for each field and an empty line, or with --json one line. For a
record at fault it is one line, which begins with error, or with --json an object
with the key error. It names the field, counted from 0, and the fault, as
  RlpInvalidIndirection   a number begins with a zero byte, or a header is too long
  RlpIsTooBig             there are more bytes than the field takes
  RlpIsTooShort           there are fewer
  RlpIncorrectListLen     no such record has this number of items
  RlpExpectedToBeList     there is a string, or RlpExpectedToBeData: there is a list
Signatures aren't tested. The exit status is
  0  if all records were shown
  1  if memory was refused
  2  if reading failed
  3  if writing failed
  4  if the arguments aren't as above
  5  if a record was at fault

Examples:
  rlp_show 0xda808203e8945df9b87991262f6ba471f09758cde1c0fc1de73405
  rlp_show < block.txt
  rlp_show --json header < headers.txt
";
