//! Laws of layouts of two types of instructions, of which the one is mapped to the other.

ghost use Rattle.std.specs.Prelude.{◌≡◌, List, map};
ghost use Rattle.je_splice.specs.Block.{Piece};
ghost use Rattle.je_splice.specs.Layout.{Codes, Item, laid_code, laid_handlers};
ghost use Rattle.je_splice.specs.Mapped.{MapsCodes, mapped_piece, mapped_item, MapsMarks};
ghost use Rattle.je_splice.specs.Marks.{Marks, marked_items, marked_handlers};

/// What maps instructions and entries maps what is laid out of them.
pub fn layouts_are_mapped<A, B, H, G>()
    ensures code { (f : A → B) (g : H → G) (codes : Codes A H) (others : Codes B G) →
        MapsCodes f g codes others → (items : List (Item A (Piece A H))) →
        laid_code others (map (mapped_item f (mapped_piece f g)) items)
        ≡ map f (laid_code codes items) }
    ensures handlers { (f : A → B) (g : H → G) (codes : Codes A H) (others : Codes B G) →
        MapsCodes f g codes others → (items : List (Item A (Piece A H))) (handlers : List H) →
        laid_handlers others (map (mapped_item f (mapped_piece f g)) items) (map g handlers)
        ≡ map g (laid_handlers codes items handlers) }
{}

/// So it maps what is put at indexes, where pieces are mapped too.
pub fn marks_are_mapped<A, B, X, Y, H, G>()
    ensures items { (f : A → B) (x_map : X → Y) (g : H → G) (codes : Codes A H)
        (others : Codes B G) (m : Marks X H) (n : Marks Y G) →
        MapsCodes f g codes others → MapsMarks x_map g m n → (code : List A) →
        marked_items others n (map f code)
        ≡ map (mapped_item f x_map) (marked_items codes m code) }
    ensures handlers { (f : A → B) (x_map : X → Y) (g : H → G) (codes : Codes A H)
        (others : Codes B G) (m : Marks X H) (n : Marks Y G) →
        MapsCodes f g codes others → MapsMarks x_map g m n → (handlers : List H) →
        marked_handlers others n (map g handlers) ≡ map g (marked_handlers codes m handlers) }
{}
