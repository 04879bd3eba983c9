// A stride through a list: every how many-th element is asked.
ghost use Rattle.std.specs.Prelude.{◌≡◌, ◌<◌};
ghost use Rattle.lists.specs.EveryNth.{stride_for};

// The stride by which about so many of a count are asked, and 1 where there are fewer.
pub fn stride_for(about: usize, count: usize) -> usize
    requires { 0 < about }
    ensures { result ≡ stride_for about count }
{
    (count / about).max(1)
}
