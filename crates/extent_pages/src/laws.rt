//! What follows from the definitions alone. Each law is the contract of a function that does
//! nothing.
ghost use Rattle.std.specs.Prelude.{◌≡◌, ◌≤◌, ◌<◌, ◌^◌, ◌/◌, ◌+◌, ℕ, List, ◌∷◌, length, take, All, true, Some, Ok};
ghost use Rattle.gem_object.specs.declared.object.Object.{Object};
ghost use Rattle.gem_record.specs.declared.limits.TheConstants.{PAGE_LIMIT};
ghost use Rattle.gem_record.specs.Stored.{page_room, leaf_of};
ghost use Rattle.extent_pages.specs.Pages.{page_size, payload_size, most_pages, Book, pages_of, next_in, payload_in, is_filled, Chain, chain_from};
ghost use Rattle.extent_pages.specs.declared.root.Root.{Root};
ghost use Rattle.extent_pages.specs.Spelled.{spelled_page, root_page, spelled_directory, spelled_leaf};
ghost use Rattle.extent_pages.specs.Contents.{leaf_size, directory_of, leaf_of as objects_of_leaf};
ghost use Rattle.extent_pages.specs.Extent.{Extent, root_in, first_page, pages_used, extent_at, extent_of};
ghost use Rattle.extent_pages.specs.Laid.{IsChain, IsLaid, KeepsPages, kept_pages, IsOpen};
ghost use Rattle.extent_pages.specs.Stored.{FitsRoot, FitsPage, AreEntries, AreOfLeaf};

/// What a book's pages are read as lies there, and what lies there is read. So a chain's pages are
/// linked in the order in which they are used, and no page of an extent is used twice.
pub fn extents_lie()
    ensures chain_lies { (book : Book) (taken : List ℕ) (page : ℕ) (chain : Chain) →
        chain_from book taken page ≡ Ok chain →
        IsChain book taken chain × (first_page chain.pages ≡ page) }
    ensures chain_reads { (book : Book) (taken : List ℕ) (chain : Chain) →
        IsChain book taken chain → chain_from book taken (first_page chain.pages) ≡ Ok chain }
    ensures extent_lies { (book : Book) (page : ℕ) (extent : Extent) →
        extent_at book page ≡ Ok extent → IsLaid book page extent }
    ensures extent_reads { (book : Book) (page : ℕ) (extent : Extent) →
        IsLaid book page extent → extent_at book page ≡ Ok extent }
    ensures file_lies { (file : List ℕ) (extent : Extent) →
        extent_of file ≡ Ok (Some extent) → IsOpen file extent }
    ensures file_reads { (file : List ℕ) (extent : Extent) →
        IsOpen file extent → extent_of file ≡ Ok (Some extent) }
{}

/// What a root stands for depends on its page and on the pages that the extent uses, and what a file
/// stands for on these and on its first two bytes; on nothing else.
pub fn frame()
    ensures root { (book other : Book) (page : ℕ) (extent : Extent) →
        KeepsPages (page ∷ pages_used extent) book other → extent_at book page ≡ Ok extent →
        extent_at other page ≡ Ok extent }
    ensures file { (file image : List ℕ) (extent : Extent) → take 2 image ≡ take 2 file →
        KeepsPages (kept_pages file extent) (pages_of file) (pages_of image) →
        extent_of file ≡ Ok (Some extent) → extent_of image ≡ Ok (Some extent) }
{}

/// A page that was written reads as what it was written with, whatever its number is.
pub fn pages_read_back()
    ensures next { (next : ℕ) (payload : List ℕ) → next < 2 ^ 32 →
        next_in (spelled_page next payload) ≡ next }
    ensures payload { (next : ℕ) (payload : List ℕ) → length payload ≤ payload_size →
        payload_in (spelled_page next payload) ≡ payload }
    ensures filled { (next : ℕ) (payload : List ℕ) → FitsPage next payload →
        is_filled (spelled_page next payload) ≡ true }
    ensures size { (next : ℕ) (payload : List ℕ) → length payload ≤ payload_size →
        length (spelled_page next payload) ≡ page_size }
    ensures root { (root : Root) → FitsRoot root → root_in (root_page root) ≡ root }
    ensures root_size { (root : Root) → length (root_page root) ≡ page_size }
{}

/// Directories and leaves are read from what they are spelled as, whatever their pages are; and what
/// is read of a chain's payload is spelled so.
pub fn payloads_read_back()
    ensures directory { (pages : List ℕ) (entries : List (ℕ × ℕ)) → AreEntries entries →
        directory_of (record { pages = pages; payload = spelled_directory entries })
        ≡ Ok entries }
    ensures only_directory { (chain : Chain) (entries : List (ℕ × ℕ)) →
        All (λ byte. byte < 256) chain.payload → directory_of chain ≡ Ok entries →
        AreEntries entries × (chain.payload ≡ spelled_directory entries) }
    ensures leaf { (leaf : ℕ) (pages : List ℕ) (objects : List (ℕ × Object)) →
        AreOfLeaf leaf objects →
        objects_of_leaf leaf (record { pages = pages; payload = spelled_leaf objects }) ≡ Ok objects }
    ensures only_leaf { (leaf : ℕ) (chain : Chain) (objects : List (ℕ × Object)) →
        All (λ byte. byte < 256) chain.payload → objects_of_leaf leaf chain ≡ Ok objects →
        AreOfLeaf leaf objects × (chain.payload ≡ spelled_leaf objects) }
{}

/// Pages, leaves and what a page holds are as the record of what is stored counts them, and there are
/// no more pages than it allows.
pub fn sizes_are_those_that_are_counted()
    ensures payload { payload_size ≡ page_room }
    ensures pages { most_pages ≡ PAGE_LIMIT }
    ensures leaves { (name : ℕ) → name / leaf_size ≡ leaf_of name }
    ensures next_and_used { page_size ≡ page_room + 8 }
{}
