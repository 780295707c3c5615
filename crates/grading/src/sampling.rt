// The sampling view: a picture with its sizes and its edge rule, sampled at any two coordinates.
ghost use Rattle.std.specs.Prelude.{◌≡◌};
ghost use Rattle.picture.specs.Refusal.{number_of};
ghost use Rattle.grading.specs.Sampling.{view_refusal, clear, Held, sampled_pixel, sampled, seen, viewed};

use picture::{FullSize, Pixel, Refusal};
use pixels::pixel_at;

// A view of a picture, as anyone may make one.
#[derive(Clone, Copy)]
pub struct View<'a> {
    pub picture: &'a [u8],
    pub w: u32,
    pub h: u32,
    pub edge: u32,
}

// The first of refusals 1, 2 and 9 that a view is given.
#[tactic(auto, unfolding(picture::specs::Refusal::number_of, picture::specs::Refusal::number, picture::specs::Refusal::first_of, picture::specs::Refusal::first_else, crate::specs::Sampling::view_refusal), using(picture::proofs::Refused::number_some))]
pub fn check_view(picture: &[u8], w: u32, h: u32, edge: u32) -> Result<(), Refusal>
    ensures { number_of result ≡ view_refusal picture.now w h edge }
{
    picture::check_picture(picture.len(), w, h)?;
    picture::refuse_if(picture::wrong_edge(edge), Refusal::WrongEdge)
}

// Four zeros.
fn clear() -> Pixel
    ensures { result ≡ clear }
{
    Pixel {
        r: 0,
        g: 0,
        b: 0,
        a: 0,
    }
}

// The pixel of a column and a row: four zeros where one of them is outside.
fn pixel_of(picture: &[u8], size: FullSize, column: Option<usize>, row: Option<usize>) -> Pixel
    requires { Held picture.now size.w column row }
    ensures { result ≡ sampled_pixel picture.now size.w column row }
{
    match (column, row) {
        (Some(x), Some(y)) => pixel_at(picture, y * size.width() + x),
        _ => clear(),
    }
}

// The pixel at x, y, each extended by the edge rule: four zeros everywhere where a check refuses.
pub fn sample_at(picture: &[u8], w: u32, h: u32, edge: u32, x: i32, y: i32) -> Pixel
    ensures { result ≡ sampled picture.now w h edge x y }
{
    if check_view(picture, w, h, edge).is_err() {
        return clear();
    }
    let size = picture::full_size(w, h);
    let mode = picture::edge_mode(edge);
    let column = edges::extend_signed(x, size.width(), mode);
    let row = edges::extend_signed(y, size.height(), mode);
    pixel_of(picture, size, column, row)
}

// The view of a picture; `check_view` says why it is refused, and a refused one is 0 by 0 over an empty part.
pub fn view_of<'a>(picture: &'a [u8], w: u32, h: u32, edge: u32) -> View<'a>
    ensures { seen result ≡ viewed picture.entry w h edge }
{
    if check_view(picture, w, h, edge).is_err() {
        return View {
            picture: &picture[..0],
            w: 0,
            h: 0,
            edge,
        };
    }
    View {
        picture,
        w,
        h,
        edge,
    }
}

// The pixel that a view has at x, y.
pub fn sample<'a>(view: View<'a>, x: i32, y: i32) -> Pixel
    ensures { result ≡ sampled view.entry.picture.now view.entry.w view.entry.h view.entry.edge x y }
{
    sample_at(view.picture, view.w, view.h, view.edge, x, y)
}
