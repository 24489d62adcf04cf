//! What follows from the definitions alone. Each law is the contract of a function that does
//! nothing.
ghost use Rattle.std.specs.Prelude.{◌≡◌, ◌≢◌, ◌+◌, ◌<◌, ℕ, List, [], ◌∷◌, length, Some, None, Ok};
ghost use Rattle.std.specs.FinMap.{get};
ghost use Rattle.gem_object.specs.declared.object.Object.{Object};
ghost use Rattle.gem_record.specs.declared.mode.Mode.{Mode};
ghost use Rattle.kernel_image.specs.Objects.{kernel_image};
ghost use Rattle.tran_log.specs.declared.logged.Logged.{Logged};
ghost use Rattle.stone_store.specs.Store.{found_of, records_after, misfit};
ghost use Rattle.stone_store.specs.Rows.{row};

/// Two files without bytes, or of one byte each, stand for the image of the kernel, with no commit.
pub fn new_files_stand_for_the_kernel()
    ensures none { found_of (record { extent = []; log = [] })
        ≡ Some (record { objects = λ name. get kernel_image name; number = 0; root = 0 }) }
    ensures one { (gate first : ℕ) →
        found_of (record { extent = gate ∷ []; log = first ∷ [] })
        ≡ Some (record { objects = λ name. get kernel_image name; number = 0; root = 0 }) }
{}

/// Behind a root that goes up to the commit 5: records of the commits 4 and 5 are skipped; one of the
/// commit 6 counts, also behind them; one of the commit 7 alone doesn't fit, and neither does one of
/// the commit 4 alone.
pub fn records_by_number()
    ensures skipped { records_after 5 (row 0 4 ∷ row 50 5 ∷ []) ≡ [] }
    ensures all_skipped_fit { misfit 5 (row 0 4 ∷ row 50 5 ∷ []) ≡ None }
    ensures counted { records_after 5 (row 0 4 ∷ row 50 5 ∷ row 99 6 ∷ []) ≡ row 99 6 ∷ [] }
    ensures next_fits { misfit 5 (row 0 4 ∷ row 50 5 ∷ row 99 6 ∷ []) ≡ None }
    ensures gap { misfit 5 (row 0 7 ∷ row 50 8 ∷ []) ≡ Some (row 0 7) }
    ensures too_old { misfit 5 (row 0 3 ∷ row 50 4 ∷ []) ≡ Some (row 50 4) }
    ensures none { misfit 5 [] ≡ None }
    ensures without_a_root { misfit 0 (row 0 0 ∷ row 50 1 ∷ []) ≡ None }
{}
