ghost use Rattle.std.specs.Prelude.{◌≡◌, ℕ, ◌≤◌, Bool, ◌↔◌, List, length, Ok, Result, vec_len, vec_capacity};
ghost use Rattle.model.specs.Layout.{Reader as Reading, Refusal};
ghost use Rattle.model.specs.Tree.{Tree as Meaning};
ghost use Rattle.model.specs.TreeFiles.{linked_tree};
ghost use Rattle.model.specs.TreeSpelling.{Bytes};
ghost use Rattle.wire.specs.Told.{Reads};
ghost use Rattle.tree_files.specs.Format.{read_tree};
ghost use Rattle.tree_files.specs.Links.{Ends};
ghost use Rattle.tree_files.specs.Refused.{in_tree_fault};
ghost use Rattle.tree_files.specs.Texts.{texts_in};

use crate::fault::TreeFault;
use crate::names::Names;
use wire::reader::Reader;

// What differs from one kind of tree file to another.
pub trait Format {
    // What the bytes are read as.
    ghost reading: { List ℕ → Result Meaning Refusal };

    // Which bytes spell which tree.
    ghost Spelling: { List ℕ → Meaning → Type 0 };

    // What holds of an accepted tree besides.
    ghost Besides: { Meaning → Type 0 };

    // The names that a file may not have.
    ghost wrong: { List ℕ → Bool };

    // What follows the names, read to the tree.
    ghost after_names: { List (List ℕ) → Reading Meaning };

    fn is_wrong(name: &[u8]) -> bool
        ensures { result ≡ wrong name.now };

    // Reads what follows the names, if anything does, and lists the links in some order.
    fn read_links(
        reader: &mut Reader<'_>,
        names: &Names<'_>,
        links: &mut Vec<(usize, usize)>,
    ) -> Result<(), TreeFault>
        requires empty { vec_len links.old ≡ 0 }
        requires room { 4096 ≤ vec_capacity links.old }
        ensures read { Reads in_tree_fault (λ bytes done. linked_tree (texts_in names.now) links.new.items) reader.old result reader.new (after_names (texts_in names.now)) }
        ensures inside { Ends (length (texts_in names.now)) links.new.items }
        ensures room { vec_capacity links.new ≡ vec_capacity links.old };

    // A file is its names, and then what follows them.
    ghost in_parts: { (bytes : List ℕ) → reading bytes ≡ read_tree wrong after_names bytes };

    // Exactly the spellings are accepted.
    ghost accepted_exactly: { (bytes : List ℕ) (tree : Meaning) → Bytes bytes → (reading bytes ≡ Ok tree) ↔ Spelling bytes tree };

    ghost accepted_besides: { (bytes : List ℕ) (tree : Meaning) → Ok tree ≡ reading bytes → Besides tree };
}
