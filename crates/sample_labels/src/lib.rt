// The category files of the samples of labels, built from the fields of their records.
#![tactic(auto)]

ghost use Rattle.std.specs.Prelude.{◌≡◌, ◌*◌};
ghost use Rattle.std.proofs.lemmas.List.Edits.{sets};
ghost use Rattle.sample_labels.specs.Files as files;

use sample_bytes::{put_bytes, put_number};

// A category record; a text of more than 24 bytes is cut.
pub fn record(action: u16, kind: u8, lender: u16, text: &[u8]) -> [u8; 32]
    ensures { result ≡ files.record_of action kind lender text.now }
{
    let mut record = [0u8; 32];
    put_number(&mut record, 0, 2, u64::from(action));
    record[2] = kind;
    put_number(&mut record, 4, 2, u64::from(lender));
    put_bytes(&mut record, 8, text);
    record
}

// Writes record i of a file, as far as the file goes.
pub fn put_record(file: &mut [u8], i: u32, action: u16, kind: u8, lender: u16, text: &[u8])
    ensures { file.new ≡ sets file.old (i * 32) (files.record_of action kind lender text.now) }
{
    let bytes = record(action, kind, lender, text);
    put_bytes(file, i as usize * 32, &bytes);
}

// Writes n records with the actions from 0 on, each with a text of one letter, A to Z in turn.
pub fn fill(file: &mut [u8], n: u16)
    ensures { file.new ≡ files.filled n file.old }
{
    for i in 0..n {
        let letter = b'A' + (i % 26) as u8;
        put_record(file, u32::from(i), i, 0, 0, &[letter]);
    }
}
