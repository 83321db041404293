ghost use Rattle.std.specs.Prelude.{◌≡◌, Bool, true};

// A kind of pixel. Painting is written once for every kind that keeps these laws, and never looks inside a pixel.
pub trait Pixel: Copy {
    // the first pixel laid over the second
    ghost lay: { Self → Self → Self };

    // whether a pixel hides whatever it is laid over
    ghost solid: { Self → Bool };

    // whether two pixels are the same value: by the laws `alike` and `itself` identity, where the library's `Eq` is only
    // an equivalence
    ghost equal: { Self → Self → Bool };

    // Lays this pixel over the one below.
    fn over(self, below: Self) -> Self
        ensures { result ≡ lay self below };

    fn is_solid(self) -> bool
        ensures { result ≡ solid self };

    fn same(self, other: Self) -> bool
        ensures { result ≡ equal self other };

    ghost hides: { (s d : Self) → solid s ≡ true → lay s d ≡ s };

    ghost alike: { (a b : Self) → equal a b ≡ true → a ≡ b };

    ghost itself: { (a : Self) → equal a a ≡ true };
}
