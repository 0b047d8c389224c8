//! The laws of images, for all lists of numbers. Each law is the contract of a function that does nothing.
ghost use Rattle.std.specs.Prelude.{◌≡◌, ◌↔◌, ◌+◌, ◌^◌, ◌<◌, ◌∷◌, [], ℕ, List, take, set, length};
ghost use Rattle.log_spec.specs.Image.{Image, IsImage, closed, damaged, standing};
ghost use Rattle.log_spec.specs.ImageOf.{image_of, AllShort, rest_text, laid_image};
ghost use Rattle.log_spec.specs.PairImage.{PairImage, IsPairImage, broken, counts, pair_image};
ghost use Rattle.log_spec.specs.declared.side.Side.TheVariants.{A, B};
ghost use Rattle.log_spec.specs.Example.{store_file, store_frames, bare_file, first_frame};

/// Each file has exactly one image, and the function computes it.
pub fn each_file_has_one_image()
    ensures some { (file : List ℕ) → IsImage file (image_of file) }
    ensures one { (file : List ℕ) (a b : Image) → IsImage file a → IsImage file b → a ≡ b }
    ensures same { (file : List ℕ) (image : Image) → (image_of file ≡ image) ↔ IsImage file image }
{}

/// If a file agrees with an open one up to and including its first closed gate, both stand for the same.
pub fn nothing_is_said_past_the_gate()
    ensures { (file other : List ℕ) (generation : ℕ) (frames : List (List ℕ)) (gate : ℕ) → IsImage file (standing generation frames gate)
        → take (gate + 1) other ≡ take (gate + 1) file → IsImage other (standing generation frames gate) }
{}

/// A head with an open gate, frames after open gates and a closed gate stand for those frames.
pub fn a_laid_file_stands_for_its_frames()
    ensures { (generation : ℕ) (frames : List (List ℕ)) → generation < 2 ^ 64 → AllShort frames
        → IsImage (1 ∷ rest_text generation frames) (laid_image generation frames) }
{}

/// A laid store file, byte for byte.
pub fn a_laid_store_has_these_bytes()
    ensures bytes { 1 ∷ rest_text 1 store_frames ≡ store_file }
    ensures size { length store_file ≡ 44 }
    ensures image { IsImage store_file (standing 1 store_frames 43) }
{}

/// Edge cases of one file: the shortest log, one byte less of it, and where other files are damaged.
pub fn files_at_the_edges_are_told()
    ensures sixteen_bytes { IsImage (take 16 bare_file) closed }
    ensures seventeen_bytes { IsImage bare_file (standing 7 [] 16) }
    ensures another_gate { IsImage (set store_file 0 2) closed }
    ensures another_letter { IsImage (set store_file 7 50) (damaged 1) }
    // An open gate follows the head, and nothing follows the gate.
    ensures no_frame { IsImage (set bare_file 16 1) (damaged 16) }
    // No byte follows the second frame; in the next clause, its length is one too great.
    ensures no_gate { IsImage (take 43 store_file) (damaged 34) }
    ensures past_the_end { IsImage (set store_file 35 5) (damaged 34) }
    ensures second_gate { IsImage (set store_file 34 0) (standing 1 first_frame 34) }
{}

/// Each pair of files has exactly one image, and the function computes it.
pub fn each_pair_has_one_image()
    ensures some { (a b : List ℕ) → IsPairImage a b (pair_image (image_of a) (image_of b)) }
    ensures one { (a b : List ℕ) (x y : PairImage) → IsPairImage a b x → IsPairImage a b y → x ≡ y }
    ensures same { (a b : List ℕ) (image : PairImage) → (pair_image (image_of a) (image_of b) ≡ image) ↔ IsPairImage a b image }
{}

/// Edge cases of pairs: no open file, a damaged one of two, and which of two open ones counts.
pub fn pairs_at_the_edges_are_told()
    ensures none { IsPairImage (take 16 bare_file) [] (broken A 0) }
    ensures first_is_damaged { IsPairImage (set bare_file 16 1) (set store_file 7 50) (broken A 16) }
    ensures second_is_damaged { IsPairImage store_file (set bare_file 16 1) (broken B 16) }
    ensures second_alone { IsPairImage [] store_file (counts B 1 store_frames 43) }
    ensures second_is_newer { IsPairImage store_file bare_file (counts B 7 [] 16) }
    ensures as_new { IsPairImage (set bare_file 8 1) store_file (counts A 1 [] 16) }
{}
