//! What a power cut may leave, in the words of whoever mounts it afterwards.
ghost use Rattle.std.specs.Prelude.{◌≡◌, ℕ, ◌+◌, ◌<◌, ◌≤◌, List, length, slice_index, slice_range};
ghost use Rattle.qx_outside.specs.Trail.{History, bytes_of};
ghost use Rattle.qx_outside.specs.Images.{IsAsked, IsPending, IsImage, IsSettled};
ghost use Rattle.qx_outside.specs.Puts.{IsApartFrom, IsAtRest, IsPartOf, IsPutting, Put};

/// A range with no pending byte is the device's in each image.
pub fn an_image_has_what_is_not_pending()
    ensures { (h : History) (image : List ℕ) (from n : ℕ) → IsImage h image
        → ((k : ℕ) → from ≤ k → k < from + n → IsPending h.deeds k → ⊥)
        → slice_range image from (from + n) ≡ slice_range (bytes_of h) from (from + n) }
{}

/// A device with nothing pending has one image, its own bytes.
pub fn a_settled_device_has_one_image()
    ensures { (h : History) (image : List ℕ) → IsSettled h → IsImage h image → image ≡ bytes_of h }
{}

/// A cut that loses nothing leaves the device's bytes.
pub fn the_device_is_an_image()
    ensures { (h : History) → IsImage h (bytes_of h) }
{}

/// While bytes are being put, each image has what was kept in all other places, and what was asked for is a part of them.
pub fn what_an_image_has_while_bytes_are_put()
    ensures rest { (kept : List ℕ) (puts : List Put) (h : History) → IsAtRest kept h → IsPutting kept puts h }
    ensures size { (kept : List ℕ) (puts : List Put) (h : History) (image : List ℕ) → IsPutting kept puts h → IsImage h image
        → length image ≡ length kept }
    ensures apart { (kept : List ℕ) (puts : List Put) (h : History) (image : List ℕ) (k : ℕ) → IsPutting kept puts h → IsImage h image
        → IsApartFrom puts k → slice_index image k ≡ slice_index kept k }
    ensures asked { (kept : List ℕ) (puts : List Put) (h : History) (at : ℕ) (bytes : List ℕ) → 0 < length bytes → IsPutting kept puts h
        → IsAsked h.deeds at bytes → IsPartOf puts at bytes }
{}
